// Forms, and the formulas without parts, as terms of SMT-LIB.
ghost use Rattle.std.specs.Prelude.{◌≡◌, false, ◌+◌, ◌*◌, ◌≤◌, ◌<◌, length, take, drop, nat_abs};
ghost use Rattle.forms.specs.Edition.{edition1};
ghost use Rattle.forms.specs.Forms.{literal, ◌divides◌};
ghost use Rattle.number_bytes.specs.Numbers.{signed};
ghost use Rattle.form_value.specs.FormAt.{form_at, Whole};
ghost use Rattle.printing.specs.Text.{term_text};
ghost use Rattle.printing.specs.Translation.{term_of};
ghost use Rattle.printing_text.specs.PutsText.{text_limit, Puts};
ghost use Rattle.printing_formula.specs.Pieces.{product_text};

use crate::language::{Coefficients, Language, first_nonzero, put_pieces};
use forms::TERM_BYTES;
use integers::is_zero;
use number_bytes::words::Width;
use printing_signs::{put_number, put_relation};
use printing_text::{Text, magnitude};

pub struct SmtLib;

impl Coefficients for SmtLib {
    ghost piece = { product_text };

    // (* c ri) behind a space; nothing for 0.
    fn put_piece(s: &[u8], at: usize, i: usize, text: &mut Text<'_>) {
        let c = Width::Four.signed_at(s, at);
        if is_zero(c) {
            return;
        }
        text.put(b" (* ");
        put_number(text, c);
        text.put(b" ");
        text.put_register(i);
        text.put(b")");
    }
}

// The products and the constant term; the constant term alone where there are none.
fn put_form(s: &[u8], at: usize, k: usize, text: &mut Text<'_>)
    requires whole { Whole s.now at k }
    requires k_le_constants { k ≤ edition1.constants }
    requires end_bound { text.old.end + 700 ≤ text_limit }
    ensures same_output { text.new.out.ghost_name ≡ text.old.out.ghost_name }
    ensures puts { Puts text.old text.new (term_text (term_of (form_at s.now at k))) (18 + 23 * k) }
{
    let d = Width::Four.signed_at(s, at + k * TERM_BYTES);
    match first_nonzero(s, at, k) {
        None => put_number(text, d),
        Some(_) => {
            text.put(b"(+");
            put_pieces::<SmtLib>(s, at, 0, k, text);
            text.put(b" ");
            put_number(text, d);
            text.put(b")");
        }
    }
}

impl Language for SmtLib {
    ghost wording = { false };

    // (<= t 0), (= t 0)
    fn put_literal(s: &[u8], at: usize, k: usize, equality: bool, text: &mut Text<'_>) {
        put_relation(text, equality);
        put_form(s, at, k, text);
        text.put(b" 0)");
    }

    // (= (mod t g) 0)
    fn put_stride(s: &[u8], at: usize, k: usize, g: i64, text: &mut Text<'_>) {
        text.put(b"(= (mod ");
        put_form(s, at, k, text);
        text.put(b" ");
        text.put_decimal(magnitude(g));
        text.put(b") 0)");
    }

    fn put_open(text: &mut Text<'_>, _inner: bool, either: bool) {
        if either {
            text.put(b"(or ");
            return;
        }
        text.put(b"(and ");
    }

    fn put_between(text: &mut Text<'_>, _either: bool) {
        text.put(b" ");
    }

    fn put_close(text: &mut Text<'_>, _inner: bool) {
        text.put(b")");
    }
}
