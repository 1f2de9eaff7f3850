// Document 01's lines, written from a place of a list on. Each function answers the place behind its line.
ghost use Rattle.std.specs.Prelude.{ℕ, List, length};
ghost use Rattle.listing.specs.Listing.{numbers_line, plan_line, piece_line, cut_line, refusal_line};
ghost use Rattle.listing.specs.Written.{Room, Written};

use crate::put;

// How a plan's lines begin: a word and two numbers.
fn put_numbers(word: &[u8], a: u64, b: u64, at: usize, out: &mut [u8]) -> usize
    requires { Room (length (numbers_line word.now a b)) out.old at }
    ensures { Written (numbers_line word.now a b) out.old at out.new result }
{
    let at = put::put_text(word, at, out);
    let at = put::put_number(a, at, out);
    let at = put::put_text(b" ", at, out);
    put::put_number(b, at, out)
}

// The first line: how many pieces, and how many cuts.
pub fn put_plan(pieces: u64, cuts: u64, at: usize, out: &mut [u8]) -> usize
    requires { Room (length (plan_line pieces cuts)) out.old at }
    ensures { Written (plan_line pieces cuts) out.old at out.new result }
{
    let at = put_numbers(b"plan ", pieces, cuts, at, out);
    put::put_text(b"\n", at, out)
}

// The line of a piece: its start, its end and its flags.
pub fn put_piece(start: u64, end: u64, flags: u64, at: usize, out: &mut [u8]) -> usize
    requires { Room (length (piece_line start end flags)) out.old at }
    ensures { Written (piece_line start end flags) out.old at out.new result }
{
    let at = put_numbers(b"piece ", start, end, at, out);
    let at = put::put_text(b" ", at, out);
    let at = put::put_flags(flags, at, out);
    put::put_text(b"\n", at, out)
}

// The line of a cut: the previous piece's end, the next one's start, and the reason.
pub fn put_cut(end: u64, start: u64, reason: u64, at: usize, out: &mut [u8]) -> usize
    requires { Room (length (cut_line end start reason)) out.old at }
    ensures { Written (cut_line end start reason) out.old at out.new result }
{
    let at = put_numbers(b"cut ", end, start, at, out);
    let at = put::put_text(b" ", at, out);
    let at = put::put_reason(reason, at, out);
    put::put_text(b"\n", at, out)
}

// What a row of three numbers stands for, and how its line is written.
pub trait Row {
    ghost line: { ℕ → ℕ → ℕ → List ℕ };

    fn put(from: u64, to: u64, mark: u64, at: usize, out: &mut [u8]) -> usize
        requires { Room (length (line from to mark)) out.old at }
        ensures { Written (line from to mark) out.old at out.new result };
}

// A piece: its start, its end and its flags.
pub struct Piece;

impl Row for Piece {
    ghost line = { piece_line };

    fn put(from: u64, to: u64, mark: u64, at: usize, out: &mut [u8]) -> usize {
        put_piece(from, to, mark, at, out)
    }
}

// A cut: the previous piece's end, the next one's start, and the reason.
pub struct Cut;

impl Row for Cut {
    ghost line = { cut_line };

    fn put(from: u64, to: u64, mark: u64, at: usize, out: &mut [u8]) -> usize {
        put_cut(from, to, mark, at, out)
    }
}

// The line of a refusal: its number.
pub fn put_refusal(number: u64, at: usize, out: &mut [u8]) -> usize
    requires { Room (length (refusal_line number)) out.old at }
    ensures { Written (refusal_line number) out.old at out.new result }
{
    let at = put::put_text(b"refused ", at, out);
    let at = put::put_number(number, at, out);
    put::put_text(b"\n", at, out)
}
