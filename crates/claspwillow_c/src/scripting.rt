// The script of a tree in bytes. The crate `script_entry` has the entries; these call them.
ghost use Rattle.std.specs.Prelude.{◌≡◌};
ghost use Rattle.trees.specs.Reading.{max_records};
ghost use Rattle.script_bytes.specs.Tables.{tables};
ghost use Rattle.script_bytes.specs.ScriptOf.{ScriptPromise};

// The script of a tree: the number of document 02, the script in `out`, and in `bytes` how many bytes it has, 0 on a refusal. Work memory is zero
// afterwards.
#[unsafe(no_mangle)]
pub extern "C" fn claspwillow_script(
    context: u32,
    tree: &[u8],
    keys: &[u8],
    key_hashes: &[u8],
    hashes32: &[u8],
    hashes20: &[u8],
    out: &mut [u8],
    work: &mut [u64],
    bytes: &mut u64,
) -> u32
    ensures { ScriptPromise context tree.now
        (tables keys.now key_hashes.now hashes32.now hashes20.now)
        out.old work.old result out.new bytes.new work.new }
{
    script_entry::claspwillow_script(
        context, tree, keys, key_hashes, hashes32, hashes20, out, work, bytes,
    )
}

// The one length of work memory that the script's entry takes, in words.
#[unsafe(no_mangle)]
pub extern "C" fn claspwillow_script_work() -> usize
    ensures { result ≡ max_records }
{
    script_entry::claspwillow_script_work()
}
