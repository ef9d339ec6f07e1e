//! What is wanted of files whose statements outside the language are taken by their names alone, by the words of the command line.

ghost use Rattle.std.specs.Prelude.{◌≡◌, option_map};
ghost use Rattle.cil_program.specs.Wanted.{wanted_by, wanted_in};

use crate::command_line::compile::Report;

/// What is wanted of files whose statements outside the language are taken by their names alone.
#[derive(Clone, Copy, Debug, PartialEq, Eq)]
pub enum Wanted<'a> {
    /// What is written of the policy that their projections are compiled to.
    Compiled(Report),
    /// Their projections, printed.
    Projections,
    /// The kinds of statements that are taken by their names, printed.
    Kinds,
    /// Their projections, in files in a folder.
    InFolder(&'a str),
}

/// What is wanted of projections, by whether `--list` is there and what `--output` says; none where both are there.
pub fn wanted_by<'a>(is_list: bool, output: Option<&'a str>) -> Option<Wanted<'a>>
    ensures { option_map wanted_in result
        ≡ wanted_by is_list (option_map (λ folder. folder.now) output.entry) }
{
    match output {
        Some(_) if is_list => None,
        Some(folder) => Some(Wanted::InFolder(folder)),
        None if is_list => Some(Wanted::Kinds),
        None => Some(Wanted::Projections),
    }
}
