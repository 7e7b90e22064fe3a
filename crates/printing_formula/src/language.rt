// The languages that a formula is put in: what stands for its atoms, and around the parts of an and/or.
ghost use Rattle.std.specs.Prelude.{◌≡◌, false, Bool, List, ℕ, ℤ, ◌+◌, ◌*◌, ◌-◌, ◌≤◌, ◌<◌, length, take, drop, nat_abs};
ghost use Rattle.forms.specs.Edition.{edition1};
ghost use Rattle.forms.specs.Forms.{literal, ◌divides◌};
ghost use Rattle.number_bytes.specs.Numbers.{signed};
ghost use Rattle.formula_write.specs.Writing.{Divisor};
ghost use Rattle.form_value.specs.FormAt.{form_at, Whole};
ghost use Rattle.formula_read.specs.Nodes.{literal_kind};
ghost use Rattle.printing.specs.Dialects.{formula_text};
ghost use Rattle.printing_text.specs.PutsText.{text_limit, Puts};
ghost use Rattle.printing_signs.specs.Relations.{open_text, between_text, close_text};
ghost use Rattle.printing_formula.specs.Pieces.{pieces, FirstOf};

use forms::TERM_BYTES;
use integers::is_zero;
use number_bytes::words::Width;
use printing_text::Text;

// The coefficients behind others.
pub trait Coefficients {
    // What stands for one.
    ghost piece: { ℕ → ℤ → List ℕ };

    // The coefficient of ri.
    fn put_piece(s: &[u8], at: usize, i: usize, text: &mut Text<'_>)
        requires term_width_in_bounds { at + edition1.term_width ≤ length s.now }
        requires i_lt_constants { i < edition1.constants }
        requires end_bound { text.old.end + 32 ≤ text_limit }
        ensures same_output { text.new.out.ghost_name ≡ text.old.out.ghost_name }
        ensures puts { Puts text.old text.new (piece i (signed (take edition1.term_width (drop at s.now)))) 23 };
}

// (`equality`, `either` and `inner` say what is put, as a formula's node has it: data, no choice of a step.)
pub trait Language {
    // In words, and not as a term of SMT-LIB.
    ghost wording: { Bool };

    fn put_literal(s: &[u8], at: usize, k: usize, equality: bool, text: &mut Text<'_>)
        requires whole { Whole s.now at k }
        requires k_le_constants { k ≤ edition1.constants }
        requires end_bound { text.old.end + 800 ≤ text_limit }
        ensures same_output { text.new.out.ghost_name ≡ text.old.out.ghost_name }
        ensures puts { Puts text.old text.new (formula_text wording false (literal (literal_kind equality) (form_at s.now at k))) (25 + 23 * k) };

    fn put_stride(s: &[u8], at: usize, k: usize, g: i64, text: &mut Text<'_>)
        requires whole { Whole s.now at k }
        requires k_le_constants { k ≤ edition1.constants }
        requires divisor { Divisor g }
        requires end_bound { text.old.end + 800 ≤ text_limit }
        ensures same_output { text.new.out.ghost_name ≡ text.old.out.ghost_name }
        ensures puts { Puts text.old text.new (formula_text wording false (nat_abs g divides form_at s.now at k)) (41 + 23 * k) };

    // How an and/or starts, what stands between its parts, and how it ends; `inner` says that it is itself a part.
    fn put_open(text: &mut Text<'_>, inner: bool, either: bool)
        requires { text.old.end + 5 ≤ text_limit }
        ensures same_output { text.new.out.ghost_name ≡ text.old.out.ghost_name }
        ensures puts { Puts text.old text.new (open_text wording inner either) 5 };

    fn put_between(text: &mut Text<'_>, either: bool)
        requires { text.old.end + 5 ≤ text_limit }
        ensures same_output { text.new.out.ghost_name ≡ text.old.out.ghost_name }
        ensures puts { Puts text.old text.new (between_text wording either) 5 };

    fn put_close(text: &mut Text<'_>, inner: bool)
        requires { text.old.end + 1 ≤ text_limit }
        ensures same_output { text.new.out.ghost_name ≡ text.old.out.ghost_name }
        ensures puts { Puts text.old text.new (close_text wording inner) 1 };
}

// The coefficients from one on.
pub fn put_pieces<C: Coefficients>(s: &[u8], at: usize, from: usize, k: usize, text: &mut Text<'_>)
    requires whole { Whole s.now at k }
    requires from_le_k { (from ≤ k) × (k ≤ edition1.constants) }
    requires end_bound { text.old.end + 600 ≤ text_limit }
    ensures same_output { text.new.out.ghost_name ≡ text.old.out.ghost_name }
    ensures puts { Puts text.old text.new (pieces C.piece from (drop from (form_at s.now at k).coeffs)) (23 * (k - from)) }
{
    for i in from..k {
        C::put_piece(s, at + i * TERM_BYTES, i, text);
    }
}

// The first coefficient that is not 0.
pub fn first_nonzero(s: &[u8], at: usize, k: usize) -> Option<usize>
    requires whole { Whole s.now at k }
    requires k_le_constants { k ≤ edition1.constants }
    ensures { FirstOf (form_at s.now at k).coeffs result }
{
    for i in 0..k {
        if !is_zero(Width::Four.signed_at(s, at + i * TERM_BYTES)) {
            return Some(i);
        }
    }
    None
}
