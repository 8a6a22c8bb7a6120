// The words that the console is started with, as docs/CONSOLE.md tells them. Where they are wrong, standard error says what is wrong and which are
// right.
//
// The contracts cite specs/Words.antt. No contract can say which words are given, nor what is written to a file or a terminal.
#![tactic(auto)]

ghost use Rattle.std.specs.Prelude.{◌≡◌};
ghost use Rattle.command_line.specs.Words.{Names, NamesLater, context_place, last_word, most_words, count_for, asked_of};

use files::{WORD_ROOM, say, word, word_count};
use std::rt::Env;

// The places of POLICY or TREE and of OUTPUT among the words.
pub const INPUT_WORD: usize = 3;

pub const OUTPUT_WORD: usize = 4;

// The places of a script's KEYS, KEYHASHES, HASHES32, HASHES20 and OUTPUT after that of its TREE, which stands one word later after `--words`.
pub const KEYS_AFTER: usize = 1;

pub const KEY_HASHES_AFTER: usize = 2;

pub const HASHES32_AFTER: usize = 3;

pub const HASHES20_AFTER: usize = 4;

pub const SCRIPT_AFTER: usize = 5;

pub const WORDS_INPUT_WORD: usize = 4;

// The place of RIGHT among the words; LEFT stands where TREE does.
pub const RIGHT_WORD: usize = 4;

// The places of INDEX and BYTE.
pub const INDEX_WORD: usize = 4;

const BYTE_WORD: usize = 5;

// The place of the TREE that is to stand for a POLICY.
pub const PROPOSED_WORD: usize = 4;

// The places of POLICY and OUTPUT of a mover, which takes no context.
pub const MOVED_WORD: usize = 2;

pub const MOVED_OUTPUT_WORD: usize = 3;

// The commands; `Words` is a script shown word by word.
#[derive(Clone, Copy)]
pub enum Command {
    Compile,
    Size,
    Check,
    Script,
    Words,
    Differ,
    Index,
    At,
    Accept,
    New,
    Old,
}

// What the program is asked to do: a command in a context, which is 0 for a mover.
#[derive(Clone, Copy)]
pub struct Asked {
    pub command: Command,
    pub context: u32,
}

// How many words there are, beside how many a command takes.
#[derive(Clone, Copy)]
pub enum Count {
    TooFew,
    TooMany,
    Right,
}

// Says what the words are that name a context, files and a byte.
fn say_files(rt: &impl Eprint) {
    say(
        rt,
        "CONTEXT is 0 for SegWit v0, 1 for Tapscript. POLICY, TREE, LEFT and RIGHT are files of records, - for standard input.\n",
    );
    say(
        rt,
        "KEYS, KEYHASHES, HASHES32 and HASHES20 are files of keys and hashes, one after another. OUTPUT is a new file.\n",
    );
    say(
        rt,
        "INDEX is a file that console index wrote. BYTE is the number of a script's byte, 0 for the first.\n",
    );
}

// Says which words are right, from those of `index` on.
fn say_later_commands(rt: &impl Eprint) {
    say(rt, "       console index CONTEXT TREE [OUTPUT]\n");
    say(rt, "       console at CONTEXT TREE INDEX BYTE\n");
    say(rt, "       console accept CONTEXT POLICY TREE\n");
    say(rt, "       console new POLICY OUTPUT\n");
    say(rt, "       console old POLICY OUTPUT\n");
}

// Says what is wrong with the words, and which are right.
fn usage(rt: &impl Eprint, wrong: &str) {
    say(rt, "console: ");
    say(rt, wrong);
    say(rt, "\nusage: console compile CONTEXT POLICY [OUTPUT]\n");
    say(rt, "       console size CONTEXT POLICY\n");
    say(rt, "       console check CONTEXT TREE\n");
    say(
        rt,
        "       console script [--words] CONTEXT TREE KEYS KEYHASHES HASHES32 HASHES20 [OUTPUT]\n",
    );
    say(rt, "       console differ CONTEXT LEFT RIGHT\n");
    say_later_commands(rt);
    say_files(rt);
}

// The command that a word names, of the last five.
fn later_command(word: &[u8]) -> Option<Command>
    ensures { NamesLater word.now result }
{
    if word == b"index".as_slice() {
        return Some(Command::Index);
    }
    if word == b"at".as_slice() {
        return Some(Command::At);
    }
    if word == b"accept".as_slice() {
        return Some(Command::Accept);
    }
    if word == b"new".as_slice() {
        return Some(Command::New);
    }
    if word == b"old".as_slice() {
        return Some(Command::Old);
    }
    None
}

// The command that a word names.
fn command_of(word: &[u8]) -> Option<Command>
    ensures { Names word.now result }
{
    if word == b"compile".as_slice() {
        return Some(Command::Compile);
    }
    if word == b"size".as_slice() {
        return Some(Command::Size);
    }
    if word == b"check".as_slice() {
        return Some(Command::Check);
    }
    if word == b"script".as_slice() {
        return Some(Command::Script);
    }
    if word == b"differ".as_slice() {
        return Some(Command::Differ);
    }
    later_command(word)
}

// The place of a command's CONTEXT, none for a mover.
fn context_place(command: Command) -> Option<usize>
    ensures { result ≡ context_place command }
{
    match command {
        Command::Words => Some(3),
        Command::New | Command::Old => None,
        _ => Some(2),
    }
}

// The place of the last word that a command needs.
fn last_word(command: Command) -> usize
    ensures { result ≡ last_word command }
{
    match command {
        Command::Compile => INPUT_WORD,
        Command::Size => INPUT_WORD,
        Command::Check => INPUT_WORD,
        Command::Script => INPUT_WORD + HASHES20_AFTER,
        Command::Words => WORDS_INPUT_WORD + HASHES20_AFTER,
        Command::Differ => RIGHT_WORD,
        Command::Index => INPUT_WORD,
        Command::At => BYTE_WORD,
        Command::Accept => PROPOSED_WORD,
        Command::New => MOVED_OUTPUT_WORD,
        Command::Old => MOVED_OUTPUT_WORD,
    }
}

// The most words that a command takes, the program's own name among them.
fn most_words(command: Command) -> usize
    ensures { result ≡ most_words command }
{
    match command {
        Command::Compile => OUTPUT_WORD + 1,
        Command::Size => INPUT_WORD + 1,
        Command::Check => INPUT_WORD + 1,
        Command::Script => INPUT_WORD + SCRIPT_AFTER + 1,
        Command::Words => WORDS_INPUT_WORD + SCRIPT_AFTER + 1,
        Command::Differ => RIGHT_WORD + 1,
        Command::Index => OUTPUT_WORD + 1,
        Command::At => BYTE_WORD + 1,
        Command::Accept => PROPOSED_WORD + 1,
        Command::New => MOVED_OUTPUT_WORD + 1,
        Command::Old => MOVED_OUTPUT_WORD + 1,
    }
}

// How so many words suit a command.
fn count_for(command: Command, words: usize) -> Count
    ensures { result ≡ count_for command words }
{
    if words <= last_word(command) {
        return Count::TooFew;
    }
    if most_words(command) < words {
        return Count::TooMany;
    }
    Count::Right
}

// What a command asks in a context, if there is one; a mover asks the same in any.
fn asked_in(command: Command, context: Option<u32>) -> Option<Asked>
    ensures { result ≡ asked_of command context }
{
    let given = context?;
    let context = match command {
        Command::New | Command::Old => 0,
        _ => given,
    };
    Some(Asked { command, context })
}

// Whether a script is to be shown word by word.
fn words_wanted(rt: &impl Env) -> bool {
    let mut room = [0u8; WORD_ROOM];
    let n = word(rt, 2, &mut room).unwrap_or(0);
    &room[..n] == b"--words".as_slice()
}

// The command that the words name.
fn command_given(rt: &impl Env) -> Option<Command> {
    let mut room = [0u8; WORD_ROOM];
    let n = word(rt, 1, &mut room).unwrap_or(0);
    let command = command_of(&room[..n])?;
    if matches!(command, Command::Script) && words_wanted(rt) {
        return Some(Command::Words);
    }
    Some(command)
}

// Whether there are as many words as a command takes; says so where not.
fn words_suit<R: Env + Eprint>(rt: &R, command: Command) -> bool {
    match count_for(command, word_count(rt)) {
        Count::TooFew => {
            usage(rt, "too few words");
            false
        }
        Count::TooMany => {
            usage(rt, "too many words");
            false
        }
        Count::Right => true,
    }
}

// The decimal number that word i writes.
fn number_word(rt: &impl Env, i: usize) -> Option<u32> {
    let mut room = [0u8; WORD_ROOM];
    let n = word(rt, i, &mut room).unwrap_or(0);
    numerals::decimal(&room[..n])
}

// The same; says what is wrong where there is none.
fn number_at<R: Env + Eprint>(rt: &R, i: usize, wrong: &str) -> Option<u32> {
    let number = number_word(rt, i);
    if number.is_none() {
        usage(rt, wrong);
    }
    number
}

// The CONTEXT of a command, 0 where it takes none; says so where the words are too few, too many, or have none.
fn context_given<R: Env + Eprint>(rt: &R, command: Command) -> Option<u32> {
    if !words_suit(rt, command) {
        return None;
    }
    let Some(place) = context_place(command) else {
        return Some(0);
    };
    number_at(
        rt,
        place,
        "CONTEXT is not a decimal number up to 4294967295",
    )
}

// The BYTE that is to be looked up; says so where there is none.
pub fn byte_given<R: Env + Eprint>(rt: &R) -> Option<u32> {
    number_at(
        rt,
        BYTE_WORD,
        "BYTE is not a decimal number up to 4294967295",
    )
}

// What the words ask; says so where they ask nothing.
pub fn what_is_asked<R: Env + Eprint>(rt: &R) -> Option<Asked> {
    let Some(command) = command_given(rt) else {
        usage(rt, "no command that it knows");
        return None;
    };
    asked_in(command, context_given(rt, command))
}
