// Numbers and bytes as text into a lent buffer, in ASCII: what the lines of the programs are made of.
#![tactic(auto)]

ghost use Rattle.std.specs.Prelude.{◌≡◌, [], ◌∷◌, ◌++◌, ◌+◌, ◌*◌, ◌^◌, ◌≤◌, ◌<◌, length};
ghost use Rattle.std.proofs.lemmas.List.Edits.{sets};
ghost use Rattle.lists.specs.Lists.{over_front};
ghost use Rattle.text.specs.Text.{ascii, decimal, row_text, rows_text, rows_of};
ghost use Rattle.text.specs.Digits.{last_digits, spaced, Put};

// The last n digits of a number, from the last one backwards: each is what a division by ten leaves.
fn spell(out: &mut [u8], at: usize, n: usize, x: u64)
    requires { at + n ≤ length out.old }
    ensures { out.new ≡ sets out.old at (last_digits n x) }
{
    let mut rest = x;
    for i in (0..n).rev() {
        out[at + i] = 48 + (rest % 10) as u8;
        rest /= 10;
    }
}

// A number of MOST digits at most from a place of the buffer on; the place after it. Every u32 has ten digits at most, and the sum
// of two; every u64 has twenty. Most numbers of a listing have one digit: they are put without a count and a division.
pub fn put_number<const MOST: usize>(out: &mut [u8], at: usize, x: u64) -> usize
    requires { (0 < MOST) × (x < 10 ^ MOST) × (at + MOST ≤ length out.old) }
    ensures put { Put out.old at (decimal x) out.new result }
    ensures upper_bound { result ≤ at + MOST }
{
    if x < 10 {
        out[at] = 48 + x as u8;
        return at + 1;
    }
    let n = x.ilog10() as usize + 1;
    spell(out, at, n, x);
    at + n
}

// Given bytes from a place of the buffer on; the place after them.
// Stays: a buffer and a place in it side by side. A struct of both was tried (a pen, with `&mut self` methods): where the lender is
// itself a slice, as in `put_table` and `listing::feed`, no proof knows what the buffer holds after a call that takes the struct.
pub fn put_bytes(out: &mut [u8], at: usize, bytes: &[u8]) -> usize
    requires { at + length bytes.now ≤ length out.old }
    ensures put { Put out.old at bytes.now out.new result }
    ensures value { result ≡ at + length bytes.now }
    ensures out_after { out.new ≡ sets out.old at bytes.now }
{
    let end = at + bytes.len();
    out[at..end].copy_from_slice(bytes);
    end
}

// A number of MOST digits at most and the byte that ends it; the place after both.
pub fn put_ended<const MOST: usize>(out: &mut [u8], at: usize, x: u64, end: u8) -> usize
    requires { (0 < MOST) × (x < 10 ^ MOST) × (at + MOST < length out.old) }
    ensures put { Put out.old at (decimal x ++ (end ∷ [])) out.new result }
    ensures upper_bound { result ≤ at + MOST + 1 }
{
    let after = put_number::<MOST>(out, at, x);
    out[after] = end;
    after + 1
}

// An event and its kind byte between a head and a tail: the message of one that is no whole record of a known kind.
pub fn put_event(out: &mut [u8], at: usize, head: &[u8], event: u64, kind: u8, tail: &[u8]) -> usize
    requires { (event < 10000000000) × (at + length head.now + length tail.now + 20 ≤ length out.old) }
    ensures put { Put out.old at (head.now ++ (decimal event ++ (ascii " (kind " ++ (decimal kind ++ tail.now)))) out.new result }
    ensures upper_bound { result ≤ at + length head.now + length tail.now + 20 }
{
    let event_at = put_bytes(out, at, head);
    let after_event = put_number::<10>(out, event_at, event);
    let kind_at = put_bytes(out, after_event, b" (kind ");
    let after_kind = put_number::<3>(out, kind_at, u64::from(kind));
    put_bytes(out, after_kind, tail)
}

// Words from a place on, each with a space behind it; the place after them.
pub fn put_spaced(out: &mut [u8], at: usize, words: &[u32]) -> usize
    requires { at + length words.now * 11 ≤ length out.old }
    ensures put { Put out.old at (spaced words.now) out.new result }
    ensures upper_bound { result ≤ at + length words.now * 11 }
{
    let mut place = at;
    for word in words {
        place = put_ended::<10>(out, place, u64::from(*word), b' ');
    }
    place
}

// A row of words, one or more, from a place on; the place after the line.
pub fn put_words(out: &mut [u8], at: usize, words: &[u32]) -> usize
    requires { (0 < length words.now) × (at + length words.now * 11 ≤ length out.old) }
    ensures put { Put out.old at (row_text words.now) out.new result }
    ensures upper_bound { result ≤ at + length words.now * 11 }
{
    let last = words.len() - 1;
    let place = put_spaced(out, at, &words[..last]);
    put_ended::<10>(out, place, u64::from(words[last]), b'\n')
}

// The first `count` rows of n words each, at the front of the buffer; how many bytes they take.
pub fn put_table(out: &mut [u8], words: &[u32], count: usize, n: usize) -> usize
    requires { (0 < n) × (count * (n * 11) ≤ length out.old) × (count * n ≤ length words.now) }
    ensures value { result ≡ length (rows_text (rows_of n count words.now)) }
    ensures out_after { out.new ≡ over_front (rows_text (rows_of n count words.now)) out.old }
    ensures upper_bound { result ≤ count * (n * 11) }
{
    let mut at: usize = 0;
    for i in 0..count {
        let from = i * n;
        at = put_words(out, at, &words[from..from + n]);
    }
    at
}
