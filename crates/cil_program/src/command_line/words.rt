//! The words of the command line, as `clap` reads them.

ghost use Rattle.std.specs.Prelude.{◌≡◌, Some, true, false, map, codes, IfErr, IfOk};
ghost use Rattle.clap.specs.Words.{rule_of};
ghost use Rattle.clap.specs.Simple.{new_app};
ghost use Rattle.cil_program.specs.Program.{IsCommand, files_app, files_rule, flag_rule, value_rule};
ghost use Rattle.cil_program.specs.Common.{app_of, kind_of, subcommand_name_of, subcommand_of, subcommand_rows_of, takes, OutOfMemory, AsksSession, compile_app, program_app, project_app};
ghost use Rattle.clap.specs.declared.builder.command.Command.TheViews.{out-Command};

use clap::{Arg, ArgAction, ArgMatches, Command, Error};
use std::alloc::{AllocError, Global};
use std::convert::AsStr;

/// The version that the program tells.
const VERSION: &str = "0.1.0";

/// The subcommand that compiles files, its option and its files.
pub const COMPILE: &str = "compile";

pub const VIOLATIONS: &str = "violations";

pub const FOREIGN: &str = "foreign";

pub const BOOLEANS: &str = "booleans";

pub const FILES: &str = "FILE";

/// The subcommand that writes what files are projected to, and its options.
pub const PROJECT: &str = "project";

pub const LIST: &str = "list";

pub const OUTPUT: &str = "output";

/// A subcommand, with what the help says of it.
fn new_command<'a>(alloc: Global, name: &'static str, about: &'static str) -> Command<'a>
    ensures { IsCommand (new_app name.now) result }
{
    Command::new(alloc, name).about(about)
}

/// An option that stands alone.
fn flag_option<'a>(alloc: Global, name: &'static str, help: &'static str) -> Arg<'a>
    ensures rule { rule_of result ≡ flag_rule name.now }
    ensures local { result.global ≡ false }
{
    let flag = Arg::new(alloc, name).long(name);
    flag.action(ArgAction::SetTrue).help(help)
}

/// An option with a value, and the name of the value and what the help says of it.
fn value_option<'a>(
    alloc: Global,
    name: &'static str,
    value: &'static str,
    help: &'static str,
) -> Arg<'a>
    ensures rule { rule_of result ≡ value_rule name.now }
    ensures local { result.global ≡ false }
{
    let option = Arg::new(alloc, name).long(name);
    option.action(ArgAction::Set).value_name(value).help(help)
}

/// The files of a subcommand, with what its help says of them.
fn files_argument<'a>(alloc: Global, help: &'static str) -> Arg<'a>
    ensures rule { rule_of result ≡ files_rule }
    ensures local { result.global ≡ false }
{
    Arg::new(alloc, FILES)
        .required(true)
        .num_args(1..)
        .action(ArgAction::Append)
        .help(help)
}

/// A subcommand of files, with two options of its own, with how conditional statements are taken, and with what its help says of the
/// files.
fn of_files<'a>(
    alloc: Global,
    command: Command<'a>,
    first: Arg<'a>,
    second: Arg<'a>,
    help: &'static str,
) -> Result<Command<'a>, AllocError>
    requires first_local { first.global ≡ false }
    requires second_local { second.global ≡ false }
    requires local { (out-Command command).has_globals ≡ false }
    ensures { IfOk result (IsCommand (files_app (app_of command.entry) (rule_of first.entry)
        (rule_of second.entry))) }
{
    let branches = "Branches that are taken: default, both, or NAME=true,NAME=false,..";
    let command = command.arg(first)?;
    let command = command.arg(second)?;
    let command = command.arg(value_option(alloc, BOOLEANS, "VALUES", branches))?;
    command.arg(files_argument(alloc, help))
}

/// The subcommand `compile`.
fn compile_command<'a>(alloc: Global) -> Result<Command<'a>, AllocError>
    ensures { IfOk result (IsCommand compile_app) }
{
    let about = "Compile CIL files together, and print the access rules of their policy";
    let compile = new_command(alloc, COMPILE, about);
    let help = "Print the violations of neverallow rules, in place of the access rules";
    let violations = flag_option(alloc, VIOLATIONS, help);
    let help = "Take statements outside the language by their names alone: names";
    let foreign = value_option(alloc, FOREIGN, "HOW", help);
    let help =
        "CIL files, each a module named by its base name less a final .cil; folders with --foreign";
    of_files(alloc, compile, violations, foreign, help)
}

/// The subcommand `project`.
fn project_command<'a>(alloc: Global) -> Result<Command<'a>, AllocError>
    ensures { IfOk result (IsCommand project_app) }
{
    let about = "Print or write what CIL files are compiled as with --foreign names";
    let project = new_command(alloc, PROJECT, about);
    let help = "Print only how many statements of each kind are taken by their names";
    let list = flag_option(alloc, LIST, help);
    let help = "Write each projection into DIR, under the base name of its file";
    let output = value_option(alloc, OUTPUT, "DIR", help).short('o');
    let help =
        "CIL files, each a module named by its base name less a final .cil, or folders of them";
    of_files(alloc, project, list, output, help)
}

/// The program's command.
fn program<'a>(alloc: Global) -> Result<Command<'a>, AllocError>
    ensures { IfOk result (λ command. app_of command ≡ program_app) }
{
    let program = Command::new(alloc, "cilsem")
        .version(VERSION)
        .about("Compile SELinux CIL modules, and answer scripts that change a store of them")
        .subcommand_required(true);
    let about = "Answer the script on standard input, and print an answer for each command";
    let session = new_command(alloc, "session", about);
    let compile = compile_command(alloc)?;
    let project = project_command(alloc)?;
    program
        .subcommand(session)?
        .subcommand(compile)?
        .subcommand(project)
}

/// What `clap` finds in the words, of which the first is the program's name.
pub fn matches_of<'a, T: AsStr>(alloc: Global, words: &'a [T]) -> Result<ArgMatches<'a>, Error>
    ensures session { AsksSession (map T.text words.entry.now)
        → IfOk result (λ m. subcommand_name_of m ≡ Some (codes "session")) }
    ensures memory { AsksSession (map T.text words.entry.now)
        → IfErr result (λ e. kind_of e ≡ OutOfMemory) }
    ensures found { IfOk result (λ m.
        subcommand_rows_of m ≡ subcommand_of program_app (map T.text words.entry.now)) }
    ensures taken { takes program_app (map T.text words.entry.now) ≡ true
        → IfErr result (λ e. kind_of e ≡ OutOfMemory) }
{
    program(alloc)?.try_get_matches_from(words)
}
