//! The words of a line.

ghost use Rattle.std.specs.Prelude.{◌≡◌, ◌∷◌, [], IfNone, IfSome};
ghost use Rattle.std.specs.List.{list_all};
ghost use Rattle.std.specs.Option.{option_copied};
ghost use Rattle.ttw_text.specs.Names as names;
ghost use Rattle.ttw_text.specs.Words.{TakesNumber, is_empty, only, only_name, parts, parts_left};

use crate::bytes::place_of;
use crate::names::is_name;
use crate::numbers::{front_number, read_up_to};
use std::marker::Model;

/// The parts of a line that are not taken yet. Contracts see them as a list.
#[derive(Drop)]
pub struct Parts<'a> {
    rest: Option<&'a [u8]>,
}

impl<'a> Model for Parts<'a> {
    ghost use Rattle.std.specs.Prelude.{ℕ, List};
    ghost use Rattle.std.specs.Option.{option_copied};
    ghost use Rattle.ttw_text.specs.Words.{parts_left};

    ghost Value = { List (List ℕ) };

    ghost view = { λ parts. parts_left (option_copied parts.rest) };
}

/// The first part of a line, and what stands behind its space.
fn first_part(line: &[u8]) -> (&[u8], Option<&[u8]>)
    ensures { parts line.now ≡ result.0.now ∷ parts_left (option_copied result.1) }
{
    match place_of(line, b' ') {
        Some(at) => (&line[..at], Some(&line[at + 1..])),
        None => (line, None),
    }
}

/// The parts of a line between single spaces. An empty line has one empty part, and an empty part
/// stands between two spaces that follow each other.
pub fn words(line: &[u8]) -> Parts<'_>
    ensures { result ≡ parts line.now }
{
    Parts { rest: Some(line) }
}

impl<'a> Parts<'a> {
    /// The same parts, to be taken once more.
    pub fn again(&self) -> Parts<'a>
        ensures { result ≡ self.now }
    {
        Parts { rest: self.rest }
    }

    /// Takes the next part, and answers the number that it spells, where it is at most `most`.
    /// `None` stands for the end of the parts.
    pub fn next_number(&mut self, most: u64) -> Option<Option<u64>>
        ensures end { IfNone result ((self.old ≡ []) × (self.new ≡ [])) }
        ensures number { IfSome result (λ n. TakesNumber most self.old self.new n) }
    {
        let line = self.rest?;
        match front_number(line) {
            Some((number, rest)) => {
                self.rest = rest;
                Some(Some(number).filter(|n| *n <= most))
            }
            None => {
                let (first, rest) = first_part(line);
                self.rest = rest;
                Some(read_up_to(first, most))
            }
        }
    }

    /// Whether no part is left.
    pub fn is_empty(&self) -> bool
        ensures { result ≡ is_empty self.now }
    {
        self.rest.is_none()
    }

    /// The part that is left, where it is the only one.
    pub fn only(mut self) -> Option<&'a [u8]>
        ensures { option_copied result ≡ only self.entry }
    {
        let part = self.next()?;
        self.is_empty().then_some(part)
    }

    /// The part that is left, where it is the only one and a name.
    pub fn only_name(self) -> Option<&'a [u8]>
        ensures { option_copied result ≡ only_name self.entry }
    {
        self.only().filter(|part| is_name(part))
    }

    /// Whether each part that is left is a name.
    pub fn are_names(&self) -> bool
        ensures { result ≡ list_all names.is_name self.now }
    {
        self.again().all(is_name)
    }
}

impl<'a> Iterator for Parts<'a> {
    ghost use Rattle.std.specs.Iterator.{YieldsFirstRef, item_count};

    type Item = &'a [u8];

    ghost next_gives = { YieldsFirstRef (λ parts. parts) };

    ghost remaining = { item_count (λ parts. parts) };

    fn next(&mut self) -> Option<&'a [u8]> {
        let (first, rest) = first_part(self.rest?);
        self.rest = rest;
        Some(first)
    }
}
