// What `ask` makes of what its arguments have told: it shows its manual, or it answers a question.
#![tactic(auto)]

ghost use Rattle.std.specs.Prelude.{◌≡◌};
ghost use Rattle.ask_text.specs.AskText.{question_in, shows_manual};

use arguments::Asked;
use questions::Question;

// The question in the words that the arguments have left, where they are one.
#[tactic(auto, unfolding(crate::specs::AskText::question_in))]
pub fn question_of(text: &[u8], size: usize) -> Option<Question>
    ensures { result ≡ question_in text.now size }
{
    questions::read(text.get(..size)?)
}

// Whether the manual is shown, and nothing is read: help was asked for, an argument is wrong, the name of the file is missing, or
// the question is none.
#[tactic(auto, unfolding(crate::specs::AskText::shows_manual))]
pub fn shows_manual(a: Asked, question: Option<Question>) -> bool
    ensures { result ≡ shows_manual a question }
{
    a.help | (a.wrong | (a.named | question.is_none()))
}
