// The names of the opcodes that scripts of fragments have, in places that hold a space where nothing stands. Pushes of 1 to 75 bytes and of the
// numbers 1 to 16 have a number in their name and are not in the table.
//
// The contract cites specs/Opcodes.antt.
#![tactic(auto)]

ghost use Rattle.std.specs.Prelude.{◌≡◌};
ghost use Rattle.names.specs.Text.{in_places};
ghost use Rattle.names.specs.Names.{name_in};
ghost use Rattle.opcode_names.specs.Opcodes.{opcodes};

// The name of an opcode.
pub fn word_name(opcode: u8) -> [u8; 22]
    ensures { result ≡ in_places 22 (name_in opcodes opcode) }
{
    match opcode {
        0x00 => *b"OP_0                  ",
        0x63 => *b"OP_IF                 ",
        0x64 => *b"OP_NOTIF              ",
        0x67 => *b"OP_ELSE               ",
        0x68 => *b"OP_ENDIF              ",
        0x69 => *b"OP_VERIFY             ",
        0x6b => *b"OP_TOALTSTACK         ",
        0x6c => *b"OP_FROMALTSTACK       ",
        0x73 => *b"OP_IFDUP              ",
        0x76 => *b"OP_DUP                ",
        0x7c => *b"OP_SWAP               ",
        0x82 => *b"OP_SIZE               ",
        0x87 => *b"OP_EQUAL              ",
        0x88 => *b"OP_EQUALVERIFY        ",
        0x92 => *b"OP_0NOTEQUAL          ",
        0x93 => *b"OP_ADD                ",
        0x9a => *b"OP_BOOLAND            ",
        0x9b => *b"OP_BOOLOR             ",
        0x9c => *b"OP_NUMEQUAL           ",
        0x9d => *b"OP_NUMEQUALVERIFY     ",
        0xa6 => *b"OP_RIPEMD160          ",
        0xa8 => *b"OP_SHA256             ",
        0xa9 => *b"OP_HASH160            ",
        0xaa => *b"OP_HASH256            ",
        0xac => *b"OP_CHECKSIG           ",
        0xad => *b"OP_CHECKSIGVERIFY     ",
        0xae => *b"OP_CHECKMULTISIG      ",
        0xaf => *b"OP_CHECKMULTISIGVERIFY",
        0xb1 => *b"OP_CHECKLOCKTIMEVERIFY",
        0xb2 => *b"OP_CHECKSEQUENCEVERIFY",
        0xba => *b"OP_CHECKSIGADD        ",
        _ => *b"                      ",
    }
}
