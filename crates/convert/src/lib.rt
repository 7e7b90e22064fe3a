// Turning a bundle or a proof into the other edition.
// Their definitions are conversion/specs/Turning.antt, their contracts conversion/specs/Promises.antt.
#![tactic(auto)]

ghost use Rattle.std.specs.Prelude.{◌≡◌, ◌&&◌, leb};
ghost use Rattle.forms.specs.Edition.{newest_edition};
ghost use Rattle.answers.specs.Answers.{answer, accepted};
ghost use Rattle.answers.specs.Refusals.{number_of};
ghost use Rattle.fields.specs.Fields.{fields};
ghost use Rattle.proof.specs.Tree.{starts_at};
ghost use Rattle.conversion.specs.Turning.{asked};
ghost use Rattle.conversion.specs.Promises.{TurnsBundle, TurnsProof};
ghost use Rattle.convert.specs.Phases.{HasOther, BundleTurnable, ProofTurnable, ToWrite, ToPut};

use answers::by_name::refusal;
use answers::refusals::{Fault, Refusal};
use answers::{WriteResult, acceptance};
use bundle_scan::{Body, Scanned, scan};
use conversion_bundle::{first_field_unheld, put_turned};
use conversion_survey::{Editions, first_wide, read_entries};
use conversion_write::put_entries;
use fields::header::{Headed, put_header, read_edition, read_header};
use fields::{End, FileKind, next_field};
use forms::{BUNDLE_BYTES, NEWEST, PROOF_BYTES, coefficient_bytes};

fn refused(reason: Refusal, file: u8, place: usize) -> WriteResult
    ensures { result ≡ record { answer = answer (number_of reason) file place; count = 0 } }
{
    WriteResult {
        answer: refusal(reason, file, place),
        count: 0,
    }
}

// Where the first field of a file starts, notes aside, or the file ends.
fn first_place(s: &[u8]) -> usize
    ensures { result ≡ starts_at (fields s.now) }
{
    match next_field(s, 0) {
        Ok(field) => field.at,
        Err(End::Cut { at }) => at,
        Err(End::Ends { at }) => at,
    }
}

// Whether the file has the other edition than the one asked for; or what it is refused for.
fn has_other(s: &[u8], kind: FileKind, to: u8) -> Result<(), Fault>
    requires { asked to ≡ accepted tt }
    ensures { HasOther kind to s.now result }
{
    let edition = read_edition(s, kind, NEWEST)?;
    if edition.value == to {
        return Err(Fault {
            refusal: Refusal::WrongEdition,
            place: first_place(s),
        });
    }
    Ok(())
}

// Whether it is an edition that may be asked for, whatever number it is.
fn is_edition(edition: usize) -> bool
    ensures { result ≡ (leb 1 edition && leb edition newest_edition) }
{
    (1..=NEWEST as usize).contains(&edition)
}

// ---- a bundle
// A bundle of the other edition, without fault, whose numbers the edition asked for holds; or the first fault in it.
fn turnable_bundle(file: &[u8], to: u8) -> Result<Scanned, Fault>
    requires { asked to ≡ accepted tt }
    ensures { BundleTurnable to file.now result }
{
    if file.len() > BUNDLE_BYTES {
        return Err(Fault {
            refusal: Refusal::TooLong,
            place: 0,
        });
    }
    has_other(file, FileKind::Bundle, to)?;
    let scanned = scan(file, 0, 0)?;
    let body = scanned.body;
    first_field_unheld(file, body.at, scanned.k, body.count, to)?;
    Ok(scanned)
}

// Such a bundle: 21, or it is written.
fn put_bundle(file: &[u8], k: u8, body: Body, to: u8, out: &mut [u8]) -> WriteResult
    requires { ToWrite to file.now k body }
    ensures { TurnsBundle to file.now out.old out.new result }
{
    let count = body.count;
    let size = 8 + count * (3 + (k as usize + 1) * coefficient_bytes(to));
    if out.len() < size {
        return refused(Refusal::OutputTooShort, 4, size);
    }
    put_turned(file, body.at, k, count, to, out);
    WriteResult {
        answer: acceptance(),
        count: size,
    }
}

// Turns a bundle into the edition asked for.
pub fn turn_bundle(file: &[u8], edition: usize, out: &mut [u8]) -> WriteResult
    ensures { TurnsBundle edition file.now out.old out.new result }
{
    if !is_edition(edition) {
        return refused(Refusal::WrongEdition, 4, 0);
    }
    let to = edition as u8;
    match turnable_bundle(file, to) {
        Ok(scanned) => put_bundle(file, scanned.k, scanned.body, to, out),
        Err(fault) => refused(fault.refusal, 1, fault.place),
    }
}

// ---- a proof
// The header of a proof that is turned, and how many bytes its fields have then.
#[derive(Clone, Copy)]
struct Turnable {
    head: Headed,
    size: usize,
}

// A proof of the other edition whose fields are entries with line numbers that the edition asked for holds; or the first fault
// in it.
fn turnable_proof(file: &[u8], to: u8) -> Result<Turnable, Fault>
    requires { asked to ≡ accepted tt }
    ensures { ProofTurnable to file.now result }
{
    if file.len() > PROOF_BYTES {
        return Err(Fault {
            refusal: Refusal::TooLong,
            place: 0,
        });
    }
    has_other(file, FileKind::Proof, to)?;
    let head = read_header(file, FileKind::Proof, NEWEST, 0)?;
    let editions = Editions {
        from: head.edition,
        to,
    };
    let turned = read_entries(file, head.next, head.k, editions)?;
    if !turned.fit {
        first_wide(file, head.next, editions)?;
    }
    Ok(Turnable {
        head,
        size: turned.size,
    })
}

// Such a proof: 1, 21, or it is written.
fn put_proof(file: &[u8], proof: Turnable, to: u8, out: &mut [u8]) -> WriteResult
    requires { ToPut to file.now proof.head.next proof.head.k proof.head.edition proof.size }
    ensures { TurnsProof to file.now out.old out.new result }
{
    let Headed { edition, k, next } = proof.head;
    let size = 8 + proof.size;
    if size > PROOF_BYTES {
        return refused(Refusal::TooLong, 4, size);
    }
    if out.len() < size {
        return refused(Refusal::OutputTooShort, 4, size);
    }
    put_header(out, to, k);
    let editions = Editions { from: edition, to };
    put_entries(file, next, editions, out, 8);
    WriteResult {
        answer: acceptance(),
        count: size,
    }
}

// Turns a proof into the edition asked for.
pub fn turn_proof(file: &[u8], edition: usize, out: &mut [u8]) -> WriteResult
    ensures { TurnsProof edition file.now out.old out.new result }
{
    if !is_edition(edition) {
        return refused(Refusal::WrongEdition, 4, 0);
    }
    let to = edition as u8;
    match turnable_proof(file, to) {
        Ok(proof) => put_proof(file, proof, to, out),
        Err(fault) => refused(fault.refusal, 3, fault.place),
    }
}
