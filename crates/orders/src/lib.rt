// What `plan` and `record` are told by their arguments.
#![tactic(auto)]

ghost use Rattle.std.specs.Prelude.{◌≡◌};
ghost use Rattle.orders.specs.Orders.{no_order, refused, option, takes};

// Whether help is asked for, answers in words are, an argument is wrong; which argument names the file, 0 for none.
// Stays: an Option is no plainer: argument 0 is the program's own name, so 0 names no file already, and the definitions `takes`
// and `orders_from` count arguments from 1 with 0 for none.
#[derive(Clone, Copy)]
pub struct Order {
    pub help: bool,
    pub words: bool,
    pub wrong: bool,
    pub file: usize,
}

#[tactic(auto, unfolding(crate::specs::Orders::no_order))]
pub fn no_order() -> Order
    ensures { result ≡ no_order }
{
    Order {
        help: false,
        words: false,
        wrong: false,
        file: 0,
    }
}

// An empty argument, and one that begins with -, names no file.
#[tactic(auto, unfolding(crate::specs::Orders::option))]
pub fn is_option(argument: &[u8]) -> bool
    ensures { result ≡ option argument.now }
{
    match argument.first() {
        Some(b) => *b == b'-',
        None => true,
    }
}

// One argument more, the i-th.
#[tactic(auto, unfolding(crate::specs::Orders::takes))]
pub fn take(o: Order, wordy: bool, i: usize, argument: &[u8]) -> Order
    ensures { result ≡ takes wordy o i argument.now }
{
    if tokens::is_name(argument, b"--help") {
        return Order { help: true, ..o };
    }
    if wordy & tokens::is_name(argument, b"--words") {
        return Order { words: true, ..o };
    }
    if is_option(argument) | (o.file != 0) {
        return refuse(o);
    }
    Order { file: i, ..o }
}

// An argument that is longer than any path: nothing can be told from it.
pub fn refuse(o: Order) -> Order
    ensures { result ≡ refused o }
{
    Order { wrong: true, ..o }
}
