// Forms, and the formulas without parts, in words: 2*r0 - 3*r1 - 1 <= 0, 5 divides 4*r1 + 3.
ghost use Rattle.std.specs.Prelude.{◌≡◌, true, ◌+◌, ◌*◌, ◌-◌, ◌≤◌, ◌<◌, length, take, drop, nat_abs};
ghost use Rattle.forms.specs.Edition.{edition1};
ghost use Rattle.forms.specs.Forms.{literal, ◌divides◌};
ghost use Rattle.number_bytes.specs.Numbers.{signed};
ghost use Rattle.number_bytes.specs.Ranges.{Held};
ghost use Rattle.form_value.specs.FormAt.{form_at, Whole};
ghost use Rattle.printing.specs.Words.{scaled, plain, sum_of};
ghost use Rattle.printing.specs.WordsText.{summand_text, sum_text};
ghost use Rattle.printing_text.specs.PutsText.{text_limit, Puts};
ghost use Rattle.printing_formula.specs.Pieces.{word_text, constant_text};

use crate::language::{Coefficients, Language, first_nonzero, put_pieces};
use forms::TERM_BYTES;
use integers::is_zero;
use number_bytes::words::Width;
use printing_signs::{put_said, put_sign};
use printing_text::{Text, magnitude};

pub struct PlainWords;

// A number with its sign.
fn put_plain(text: &mut Text<'_>, z: i64, front: bool)
    requires end_bound { text.old.end + 14 ≤ text_limit }
    requires held { Held 4 z }
    ensures same_output { text.new.out.ghost_name ≡ text.old.out.ghost_name }
    ensures puts { Puts text.old text.new (summand_text front (plain z)) 13 }
{
    let n = magnitude(z);
    put_sign(text, z, front);
    text.put_decimal(n);
}

// A coefficient with its sign, and its register.
fn put_scaled(text: &mut Text<'_>, z: i64, i: usize, front: bool)
    requires end_bound { text.old.end + 26 ≤ text_limit }
    requires held { Held 4 z }
    requires i_lt_constants { i < edition1.constants }
    ensures same_output { text.new.out.ghost_name ≡ text.old.out.ghost_name }
    ensures puts { Puts text.old text.new (summand_text front (scaled z i)) 17 }
{
    let n = magnitude(z);
    put_sign(text, z, front);
    text.put_decimal(n);
    text.put(b"*");
    text.put_register(i);
}

impl Coefficients for PlainWords {
    ghost piece = { word_text };

    // With its sign and its register; nothing for 0.
    fn put_piece(s: &[u8], at: usize, i: usize, text: &mut Text<'_>) {
        let c = Width::Four.signed_at(s, at);
        if is_zero(c) {
            return;
        }
        put_scaled(text, c, i, false);
    }
}

// The constant term behind others, where it is not 0.
fn put_constant(text: &mut Text<'_>, d: i64)
    requires end_bound { text.old.end + 14 ≤ text_limit }
    requires held { Held 4 d }
    ensures same_output { text.new.out.ghost_name ≡ text.old.out.ghost_name }
    ensures puts { Puts text.old text.new (constant_text d) 13 }
{
    if is_zero(d) {
        return;
    }
    put_plain(text, d, false);
}

fn put_sum(s: &[u8], at: usize, k: usize, text: &mut Text<'_>)
    requires whole { Whole s.now at k }
    requires k_le_constants { k ≤ edition1.constants }
    requires end_bound { text.old.end + 700 ≤ text_limit }
    ensures same_output { text.new.out.ghost_name ≡ text.old.out.ghost_name }
    ensures puts { Puts text.old text.new (sum_text (sum_of (form_at s.now at k))) (18 + 23 * k) }
{
    let d = Width::Four.signed_at(s, at + k * TERM_BYTES);
    match first_nonzero(s, at, k) {
        None => put_plain(text, d, true),
        Some(first) => {
            let c = Width::Four.signed_at(s, at + first * TERM_BYTES);
            put_scaled(text, c, first, true);
            put_pieces::<PlainWords>(s, at, first + 1, k, text);
            put_constant(text, d);
        }
    }
}

impl Language for PlainWords {
    ghost wording = { true };

    // t <= 0, t = 0
    fn put_literal(s: &[u8], at: usize, k: usize, equality: bool, text: &mut Text<'_>) {
        put_sum(s, at, k, text);
        put_said(text, equality);
    }

    // g divides t
    fn put_stride(s: &[u8], at: usize, k: usize, g: i64, text: &mut Text<'_>) {
        text.put_decimal(magnitude(g));
        text.put(b" divides ");
        put_sum(s, at, k, text);
    }

    // An and/or that is a part stands in parentheses.
    fn put_open(text: &mut Text<'_>, inner: bool, _either: bool) {
        if inner {
            text.put(b"(");
        }
    }

    fn put_between(text: &mut Text<'_>, either: bool) {
        if either {
            text.put(b" or ");
            return;
        }
        text.put(b" and ");
    }

    fn put_close(text: &mut Text<'_>, inner: bool) {
        if inner {
            text.put(b")");
        }
    }
}
