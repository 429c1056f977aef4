// A line and its words, and numbers in a row.
#![tactic(auto)]

ghost use Rattle.std.specs.Prelude.{◌≡◌, ℕ, ◌<◌, ◌≤◌, List, [], ◌∷◌, length, IfSome, MatchOption};
ghost use Rattle.numerals.specs.Numbers.{IsNumber, number};
ghost use Rattle.std.specs.Option.{SomeIff};
ghost use Rattle.words.specs.declared.LineError.TheVariants.{Alloc};
ghost use Rattle.words.specs.Lines.{IfRead};
ghost use Rattle.words.specs.Parts.{Fill, listed};
ghost use Rattle.words.specs.Words.{idle, Spaced, words};

use numerals::parse_number;
use std::alloc::{AllocError, Global};

/// Why a line was not read.
#[derive(Clone, Copy, Debug, PartialEq, Eq)]
pub enum LineError {
    /// It is no command.
    Malformed,
    /// Memory ran out.
    Alloc(AllocError),
}

impl From<AllocError> for LineError {
    ghost from_gives = { λ e r. r ≡ Alloc e };

    fn from(error: AllocError) -> LineError {
        LineError::Alloc(error)
    }
}

/// The first word and what follows the blank after it; none where there is but one word.
pub fn cut(text: &str) -> Option<(&str, &str)>
    ensures words { MatchOption result (words text.now ≡ text.now ∷ []) (λ x. words text.now ≡ x.0.now ∷ words x.1.now) }
    ensures spaced { Spaced text.now (words text.now) }
    ensures less { IfSome result (λ x. length x.1.now < length text.now) }
{
    text.split_once(' ')
}

/// Whether a line asks for nothing: nothing but blanks, or a comment.
pub fn is_idle(text: &str) -> bool
    ensures { result ≡ idle text.now }
{
    text.bytes().all(|b| b == b' ') || text.starts_with('#')
}

/// A number of 32 bits.
fn parse_entry(word: &str) -> Option<u32>
    ensures { SomeIff result (IsNumber word.now × (number word.now ≤ 0xffff_ffff)) (number word.now) }
{
    u32::try_from(parse_number(word)?).ok()
}

/// The numbers of 32 bits that the words of a text write; `Malformed` where a word writes none.
pub fn parse_entries(heap: Global, text: &str) -> Result<Vec<u32>, LineError>
    ensures { IfRead result (λ o. MatchOption o ((es : List ℕ) → Fill (listed es) (words text.now) → ⊥) (λ v. Fill (listed v.items) (words text.now))) }
{
    text.split(' ')
        .map(|word| parse_entry(word).ok_or(LineError::Malformed))
        .try_collect(heap)
}
