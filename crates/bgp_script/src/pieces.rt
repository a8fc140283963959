//! The pieces of a line one after another: its words, or the numbers of an address.

use crate::cut::cut_piece;
use crate::number::{read_address, read_number};
use std::marker::Model;

/// The pieces that are left.
#[derive(Drop)]
pub(crate) struct Pieces<'a> {
    mark: u8,
    rest: Option<&'a [u8]>,
}

impl<'a> Model for Pieces<'a> {
    ghost use Rattle.std.specs.Prelude.{List, ℕ};
    ghost use Rattle.std.specs.Option.{option_copied};
    ghost use Rattle.bgp_script.specs.steps.Cursor.{pieces_left};

    ghost Value = { List (List ℕ) };

    ghost view = { λ p. pieces_left p.mark (option_copied p.rest) };
}

impl<'a> Pieces<'a> {
    ghost use Rattle.std.specs.Prelude.{◌≡◌, ◌≤◌, IfSome};
    ghost use Rattle.std.specs.Option.{option_map};
    ghost use Rattle.bgp_script.specs.Pieces.{pieces_at, words_of, one_piece, behind, one_flag, is_none_left};
    ghost use Rattle.bgp_script.specs.Number.{one_number, number_behind, address_behind};

    /// The words of a line.
    pub(crate) fn words(line: &'a [u8]) -> Pieces<'a>
        ensures { result ≡ words_of line.now }
    {
        Pieces {
            mark: b' ',
            rest: Some(line),
        }
    }

    /// The parts between the dots of a word.
    pub(crate) fn between_dots(word: &'a [u8]) -> Pieces<'a>
        ensures { result ≡ pieces_at 46 word.now }
    {
        Pieces {
            mark: b'.',
            rest: Some(word),
        }
    }

    /// Whether none is left.
    #[tactic(auto, using(crate::proofs::Cuts::some_piece))]
    pub(crate) fn is_done(&self) -> bool
        ensures { result ≡ is_none_left self.now }
    {
        self.rest.is_none()
    }

    /// Reads the next piece.
    pub(crate) fn take(&mut self) -> Option<&'a [u8]>
        ensures { option_map (λ piece. (piece.now, self.new)) result ≡ one_piece self.old }
    {
        let (piece, rest) = cut_piece(self.rest?, self.mark);
        self.rest = rest;
        Some(piece)
    }

    /// Reads the next piece if it is this word, and returns whether it is.
    pub(crate) fn take_flag(&mut self, word: &[u8]) -> bool
        ensures { (result, self.new) ≡ one_flag word.now self.old }
    {
        let Some(rest) = self.rest else {
            return false;
        };
        let (piece, later) = cut_piece(rest, self.mark);
        let is_there = piece == word;
        if is_there {
            self.rest = later;
        }
        is_there
    }

    /// Reads the next piece, which must be this word.
    pub(crate) fn take_word(&mut self, word: &[u8]) -> Option<()>
        ensures { option_map (λ _. self.new) result ≡ behind word.now self.old }
    {
        if self.take_flag(word) { Some(()) } else { None }
    }

    /// Reads a number.
    pub(crate) fn take_number(&mut self, most: u32) -> Option<u32>
        ensures number { option_map (λ number. (number, self.new)) result ≡ one_number most self.old }
        ensures fits { IfSome result (λ number. number ≤ most) }
    {
        let piece = self.take()?;
        read_number(piece, most)
    }

    /// Reads a number after a word.
    pub(crate) fn take_number_behind(&mut self, word: &[u8], most: u32) -> Option<u32>
        ensures number { option_map (λ number. (number, self.new)) result ≡ number_behind word.now most self.old }
        ensures fits { IfSome result (λ number. number ≤ most) }
    {
        self.take_word(word)?;
        self.take_number(most)
    }

    /// Reads an address after a word.
    pub(crate) fn take_address_behind(&mut self, word: &[u8]) -> Option<[u8; 4]>
        ensures { option_map (λ address. (address, self.new)) result ≡ address_behind word.now self.old }
    {
        self.take_word(word)?;
        let piece = self.take()?;
        read_address(piece)
    }
}
