// Files of records that a word of the command line names: policies and fragment trees.
#![tactic(auto)]

ghost use Rattle.std.specs.Prelude.{length};
ghost use Rattle.files.specs.Rooms.{Held};

use std::rt::{Env, Files};

// The most bytes that are read, 4,096 records of 136, which 16 keys of 64 bits take, and one more, by which a longer file is told.
pub const ROOM: usize = 557_057;

// Reads the records that word i names.
pub fn load_records<R: Env + Files + Input + Eprint>(
    rt: &R,
    i: usize,
    room: &mut [u8],
) -> Option<usize>
    ensures { Held (length room.new) result }
{
    files::load_word(
        rt,
        i,
        b"the path",
        true,
        b": longer than 557056 bytes, 4096 records of 136 bytes: no tree within the limits is\n",
        room,
    )
}
