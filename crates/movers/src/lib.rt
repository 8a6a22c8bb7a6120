// The entries that move a policy between keys of 32 bits, document 01's, and keys of 64, document 02's, which claspwillow_c exports to C. They ask
// nothing of their caller.
//
// Their promise stands in specs/Promises.antt, and proofs/Determined.antt shows that it determines the outcome; what holds of them, and what compile
// gives for a policy that was moved, stands in specs/Laws.antt. What moving is, is the crate `moving`.
#![tactic(auto)]

ghost use Rattle.moving.specs.declared.Form.TheVariants as Form;
ghost use Rattle.movers.specs.Promises.{MovePromise};

use moving::Form;

// Moves a policy to a form: the number of documents 01 and 02, the policy in `out`, and in `bytes` how many bytes it has, 0 on a refusal.
fn move_to(form: Form, policy: &[u8], out: &mut [u8], bytes: &mut u64) -> u32
    ensures { MovePromise form policy.now out.old result out.new bytes.new }
{
    match moving::move_policy(form, policy, out) {
        Ok(moved) => {
            *bytes = moved as u64;
            0
        }
        Err(refusal) => {
            *bytes = 0;
            refusal.number()
        }
    }
}

// Moves a policy to the new form, in which keys have 64 bits: the number of document 01, the policy in `out`, and in `bytes` how many bytes it
// has, 0 on a refusal.
pub fn claspwillow_to_new(policy: &[u8], out: &mut [u8], bytes: &mut u64) -> u32
    ensures { MovePromise Form.New policy.now out.old result out.new bytes.new }
{
    move_to(Form::New, policy, out, bytes)
}

// Moves a policy to the old form, in which keys have 32 bits: the number of documents 01 and 02, the policy in `out`, and in `bytes` how many bytes
// it has, 0 on a refusal.
pub fn claspwillow_to_old(policy: &[u8], out: &mut [u8], bytes: &mut u64) -> u32
    ensures { MovePromise Form.Old policy.now out.old result out.new bytes.new }
{
    move_to(Form::Old, policy, out, bytes)
}
