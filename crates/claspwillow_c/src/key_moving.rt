// Policies moved between keys of 32 bits and of 64. The crate `movers` has the entries; these call them.
ghost use Rattle.moving.specs.declared.Form.TheVariants as Form;
ghost use Rattle.movers.specs.Promises.{MovePromise};

// Moves a policy to the new form, in which keys have 64 bits: the number of document 01, the policy in `out`, and in `bytes` how many bytes it
// has, 0 on a refusal.
#[unsafe(no_mangle)]
pub extern "C" fn claspwillow_to_new(policy: &[u8], out: &mut [u8], bytes: &mut u64) -> u32
    ensures { MovePromise Form.New policy.now out.old result out.new bytes.new }
{
    movers::claspwillow_to_new(policy, out, bytes)
}

// Moves a policy to the old form, in which keys have 32 bits: the number of documents 01 and 02, the policy in `out`, and in `bytes` how many bytes
// it has, 0 on a refusal.
#[unsafe(no_mangle)]
pub extern "C" fn claspwillow_to_old(policy: &[u8], out: &mut [u8], bytes: &mut u64) -> u32
    ensures { MovePromise Form.Old policy.now out.old result out.new bytes.new }
{
    movers::claspwillow_to_old(policy, out, bytes)
}
