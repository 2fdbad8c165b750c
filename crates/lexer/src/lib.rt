// The lexer: the token that stands at a place of an order file, with the place of its first byte and the place behind it.
// The idea of the proof: `tokens_from` gives the same tokens from the start of a run of blanks as from its end, and, with
// the atom read so far in hand, the same from each byte of the atom. Each byte is looked at a constant number of times.
#![tactic(auto)]

ghost use Rattle.std.specs.Prelude.{◌≡◌};
ghost use Rattle.rules.specs.Basics.{pick};
ghost use Rattle.rules.specs.Tokens.{is_digit, is_letter_or_digit, is_blank, is_number, value_from, same, kind};
ghost use Rattle.lexer.specs.Scan.{NextToken, RunEnd};

use rules::{Token, Word};

#[derive(Clone, Copy)]
pub struct Seen {
    pub token: Token,
    pub place: usize,
    pub next: usize,
}

#[tactic(auto, unfolding(rules::specs::Tokens::is_digit, rules::specs::Basics::within))]
fn is_digit(b: u8) -> bool
    ensures { result ≡ is_digit b }
{
    matches!(b, b'0'..=b'9')
}

#[tactic(auto, unfolding(rules::specs::Tokens::is_letter_or_digit, rules::specs::Tokens::is_digit, rules::specs::Basics::within))]
fn is_letter_or_digit(b: u8) -> bool
    ensures { result ≡ is_letter_or_digit b }
{
    matches!(b, b'a'..=b'z' | b'0'..=b'9')
}

#[tactic(auto, unfolding(rules::specs::Tokens::is_blank))]
fn is_blank(b: u8) -> bool
    ensures { result ≡ is_blank b }
{
    matches!(b, b' ' | b'\n')
}

// The place behind the run of bytes that meet the test, from `at` on; a place beyond the file stays. By places: `s[at..]`
// would first have to ask whether `at` is in the file.
fn run_end<F: Fn(u8) -> bool>(s: &[u8], at: usize, test: F) -> usize
    requires { F.IsAlwaysCallable test }
    ensures { RunEnd (F.post test) s.now at result }
{
    for i in at..s.len() {
        if !test(s[i]) {
            return i;
        }
    }
    at.max(s.len())
}

// 01: "A number is 1 to 7 digits"; crates/rules/specs/Basics.antt has it as most_digits.
const MOST_DIGITS: usize = 7;

// 01: "A number is 1 to 7 digits, the first not 0". Seven digits are below ten million, so the value fits. Test and value in
// one loop: two would give the loop over blanks four more counters to keep. No `fold`: a total that it carries gets no bound.
fn number_or_other(w: &[u8]) -> Word
    ensures { result ≡ pick (is_number w.now) (Word.Number (value_from 0 w.now)) Word.Other }
{
    if w.is_empty() || MOST_DIGITS < w.len() {
        return Word::Other;
    }
    if w[0] == b'0' {
        return Word::Other;
    }
    let mut n = 0;
    for b in w {
        if !is_digit(*b) {
            return Word::Other;
        }
        n = n * 10 + u32::from(*b - b'0');
    }
    Word::Number(n)
}

// By pairs, not by `==` at slices: that calls a search of the library, which stays out of line.
fn same_bytes(w: &[u8], word: &[u8]) -> bool
    ensures { result ≡ same w.now word.now }
{
    w.len() == word.len() && w.iter().zip(word).all(|(a, b)| a == b)
}

// Not by patterns: in an arm `b"job"` a proof knows the length and no byte (tried).
fn kind_of(w: &[u8]) -> Word
    ensures { result ≡ kind w.now }
{
    if same_bytes(w, b"order") {
        Word::Order
    } else if same_bytes(w, b"group") {
        Word::Group
    } else if same_bytes(w, b"job") {
        Word::Job
    } else {
        number_or_other(w)
    }
}

// The token at `at`, blanks before it skipped; a place beyond the file counts as its end.
pub fn next_token(s: &[u8], at: usize) -> Seen
    ensures { NextToken s.now at result }
{
    let place = run_end(s, at, is_blank);
    if s.len() <= place {
        return Seen {
            token: Token::End,
            place,
            next: place,
        };
    }
    let next = place + 1;
    match s[place] {
        b'(' => Seen {
            token: Token::Open,
            place,
            next,
        },
        b')' => Seen {
            token: Token::Close,
            place,
            next,
        },
        b if is_letter_or_digit(b) => {
            let end = run_end(s, place + 1, is_letter_or_digit);
            Seen {
                token: Token::Atom(kind_of(&s[place..end])),
                place,
                next: end,
            }
        }
        _ => Seen {
            token: Token::Foreign,
            place,
            next: place,
        },
    }
}
