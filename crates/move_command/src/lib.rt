// The commands that move a policy to keys of 64 bits and back to keys of 32 bits.
#![tactic(auto)]

ghost use Rattle.movers.specs.Promises.{MovePromise};

use command_line::{MOVED_OUTPUT_WORD, MOVED_WORD};
use moving::Form;
use record_files::{ROOM, load_records};
use std::rt::{Env, Files};

// The most bytes that a policy has: 64 records of 40, which 16 children take.
const POLICY_ROOM: usize = 2_560;

// Moves a policy to a form, by the entry for it.
fn moved(form: Form, policy: &[u8], out: &mut [u8], bytes: &mut u64) -> u32
    ensures { MovePromise form policy.now out.old result out.new bytes.new }
{
    match form {
        Form::New => movers::claspwillow_to_new(policy, out, bytes),
        Form::Old => movers::claspwillow_to_old(policy, out, bytes),
    }
}

// Moves a policy to a form, shows it and writes it to the new file that the words name.
fn show_moved<R: Env + Files + Print + Eprint>(rt: &R, form: Form, policy: &[u8]) {
    let mut room = [0u8; POLICY_ROOM];
    let mut bytes = 0;
    let number = moved(form, policy, &mut room, &mut bytes);
    if number != 0 {
        report::show_refusal(rt, number);
        return;
    }
    report::show_moved(rt, bytes);
    files::save_word(rt, MOVED_OUTPUT_WORD, b"the path", &room[..bytes as usize]);
}

// Moves the policy that the words name to a form: keys of 64 bits in the new one, of 32 bits in the old one.
pub fn to_form<R: Env + Files + Input + Print + Eprint>(rt: &R, form: Form) {
    let mut policy = [0u8; ROOM];
    let Some(n) = load_records(rt, MOVED_WORD, &mut policy) else {
        return;
    };
    show_moved(rt, form, &policy[..n]);
}
