// The program that people run; docs/CONSOLE.md tells its commands:
//
//     console compile CONTEXT POLICY [OUTPUT]    compiles a policy, shows the answer, writes the tree's records to the new file OUTPUT
//     console size CONTEXT POLICY                shows how large the tree is that compiling gives, what it costs and the nodes used, and writes nothing
//     console check CONTEXT TREE                 checks a fragment tree and shows its type
//     console script [--words] CONTEXT TREE KEYS KEYHASHES HASHES32 HASHES20 [OUTPUT]
//                                                shows the script of a fragment tree, word by word where that is asked, writes its bytes to OUTPUT
//     console differ CONTEXT LEFT RIGHT          shows what differs between two fragment trees
//     console index CONTEXT TREE [OUTPUT]        shows where each record of a tree stands in its script, writes the index to the new file OUTPUT
//     console at CONTEXT TREE INDEX BYTE         shows which record holds a byte of the script
//     console accept CONTEXT POLICY TREE         shows whether a tree from elsewhere stands for a policy
//     console new POLICY OUTPUT                  writes a policy with every key of 64 bits to the new file OUTPUT
//     console old POLICY OUTPUT                  writes a policy with every key of 32 bits to the new file OUTPUT
//
// A caller looks at the first word of standard output, which is document 01's number; there is none where something else went wrong, and then
// standard error says what. Each command's work stands in a crate of its own.
#![tactic(auto)]

use command_line::Command;
use moving::Form;

fn main(rt: HostRuntime) {
    let Some(asked) = command_line::what_is_asked(&rt) else {
        return;
    };
    let context = asked.context;
    let form = if matches!(asked.command, Command::Old) {
        Form::Old
    } else {
        Form::New
    };
    match asked.command {
        Command::Compile => compile_command::compile(&rt, context),
        Command::Size => compile_command::size(&rt, context),
        Command::Check => compile_command::check_tree(&rt, context),
        Command::Script | Command::Words => {}
        Command::Differ => differ_command::differ_trees(&rt, context),
        Command::Index => index_command::index_tree(&rt, context),
        Command::At => index_command::find_byte(&rt, context),
        Command::Accept => accept_command::accept(&rt, context),
        // One call: with two, its rooms would lie on top of those of this function, and it would need more stack.
        Command::New | Command::Old => move_command::to_form(&rt, form),
    }
    script_command::write_script(&rt, asked);
}
