// A policy with its keys in numbers of the other width: document 02, R-3. The policy is read as compile reads it, then each record is moved.
//
// Its contracts cite `specs/Moving.antt` (what moving is) and `specs/Answers.antt` (what its parts answer). What holds of moving stands in
// `specs/Laws.antt`.
#![tactic(auto)]

ghost use Rattle.std.specs.Prelude.{◌≡◌, ◌+◌, ◌≤◌, length};
ghost use Rattle.std.proofs.lemmas.List.Edits.{sets};
ghost use Rattle.words.specs.Bytes.{bytes_of};
ghost use Rattle.moving.specs.Moving.{key_kind, key_width, key_record, other, moves, exceeds, too_large, moved, moved_policy, move};
ghost use Rattle.moving.specs.Answers.{result_answer, extent_of, fitted, Moves};

use refusals::Refusal;

// The most records that a policy has.
const MAX_RECORDS: usize = 64;

// The largest key of an old policy.
const MAX_OLD_KEY: u64 = 4_294_967_295;

// What a policy's keys are written in: four bytes in an old policy, eight in a new one.
#[derive(Clone, Copy)]
pub enum Form {
    Old,
    New,
}

// The kind of a key's record.
fn key_kind(form: Form) -> u16
    ensures { result ≡ key_kind form }
{
    match form {
        Form::Old => 3,
        Form::New => 19,
    }
}

// The whole length of a key's record.
fn key_length(form: Form) -> u16
    ensures { result ≡ 4 + key_width form }
{
    match form {
        Form::Old => 8,
        Form::New => 12,
    }
}

// The other form.
fn other(form: Form) -> Form
    ensures { result ≡ other form }
{
    match form {
        Form::Old => Form::New,
        Form::New => Form::Old,
    }
}

// Whether a record is a key of the other form, which is to be moved.
fn moves(form: Form, whole: &[u8]) -> bool
    ensures { result ≡ moves form whole.now }
{
    records::written_kind(whole) == key_kind(other(form))
}

// Whether a key's number is too large for a form.
fn exceeds(form: Form, number: u64) -> bool
    ensures { result ≡ exceeds form number }
{
    match form {
        Form::Old => MAX_OLD_KEY < number,
        Form::New => false,
    }
}

// Whether a record is to be moved, and its key is too large for that.
fn too_large(form: Form, whole: &[u8]) -> bool
    ensures { result ≡ too_large form whole.now }
{
    moves(form, whole) && exceeds(form, records::number_of(whole))
}

// How many bytes a record has once it is moved.
fn moved_length(form: Form, whole: &[u8]) -> usize
    ensures { result ≡ length (moved form whole.now) }
{
    if moves(form, whole) {
        return key_length(form) as usize;
    }
    whole.len()
}

// How many bytes a policy has once it is moved, unless a key is too large for that. Past the policy's end its records are empty.
fn measure(form: Form, policy: &[u8]) -> Result<usize, Refusal>
    ensures { result_answer result ≡ extent_of form policy.now }
{
    let mut bytes = 0;
    let mut at = 0;
    for i in 0..MAX_RECORDS {
        let end = walk::record_end(policy, at);
        if too_large(form, &policy[at..end]) {
            return Err(Refusal::KeyTooLarge);
        }
        bytes += moved_length(form, &policy[at..end]);
        at = end;
    }
    Ok(bytes)
}

// Writes the number of a key at `at`. An old key has no more than the low 32 bits.
fn put_number(form: Form, number: u64, out: &mut [u8], at: usize)
    requires { at + key_width form ≤ length out.old }
    ensures { out.new ≡ sets out.old at (bytes_of (key_width form) number) }
{
    match form {
        Form::Old => {
            words::put_u32(out, at, (number % 0x1_0000_0000) as u32);
        }
        Form::New => {
            words::put_u64(out, at, number);
        }
    }
}

// Writes the record of a key at `at`.
fn put_key(form: Form, number: u64, out: &mut [u8], at: usize)
    requires { at + (4 + key_width form) ≤ length out.old }
    ensures { out.new ≡ sets out.old at (key_record form number) }
{
    words::put_u16(out, at, key_length(form));
    words::put_u16(out, at + 2, key_kind(form));
    put_number(form, number, out, at + 4);
}

// Writes some bytes at `at`.
fn put_bytes(bytes: &[u8], out: &mut [u8], at: usize)
    requires { at + length bytes.now ≤ length out.old }
    ensures { out.new ≡ sets out.old at bytes.now }
{
    out[at..at + bytes.len()].copy_from_slice(bytes);
}

// Writes a record, moved, at `at`, and says where it ends.
fn put_moved(form: Form, whole: &[u8], out: &mut [u8], at: usize) -> usize
    requires { at + length (moved form whole.now) ≤ length out.old }
    ensures value { result ≡ at + length (moved form whole.now) }
    ensures out_after { out.new ≡ sets out.old at (moved form whole.now) }
{
    if moves(form, whole) {
        put_key(form, records::number_of(whole), out, at);
        return at + key_length(form) as usize;
    }
    put_bytes(whole, out, at);
    at + whole.len()
}

// Writes a policy, moved.
fn put_policy(form: Form, policy: &[u8], out: &mut [u8])
    requires { length (moved_policy form policy.now) ≤ length out.old }
    ensures { out.new ≡ sets out.old 0 (moved_policy form policy.now) }
{
    let mut from = 0;
    let mut to = 0;
    for i in 0..MAX_RECORDS {
        let end = walk::record_end(policy, from);
        to = put_moved(form, &policy[from..end], out, to);
        from = end;
    }
}

// Moves a policy that is read.
fn move_read(form: Form, policy: &[u8], out: &mut [u8]) -> Result<usize, Refusal>
    ensures { Moves (fitted form policy.now (length out.old)) out.old result out.new }
{
    let bytes = measure(form, policy)?;
    if out.len() < bytes {
        return Err(Refusal::OutputTooSmall);
    }
    put_policy(form, policy, out);
    Ok(bytes)
}

// Moves a policy to a form: how many bytes it has, which are the output's first bytes, or the refusal of documents 01 and 02.
pub fn move_policy(form: Form, policy: &[u8], out: &mut [u8]) -> Result<usize, Refusal>
    ensures { Moves (move form policy.now (length out.old)) out.old result out.new }
{
    let mut pol = [0u64; 2560];
    policies::read_policy(policy, &mut pol)?;
    move_read(form, policy, out)
}
