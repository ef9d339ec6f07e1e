//! What was found behind a subcommand.

ghost use Rattle.std.specs.Prelude.{◌≡◌, ◌≢◌, [], map, option_map, unwrap_or, IfOk, OnErr};
ghost use Rattle.cil_program.specs.Common.{found_of, rows_of, IsReportAsked, IsWanted, conditionals_asked, conditionals_in, foreign_asked, foreign_in, wanted_in};
ghost use Rattle.cil_program.specs.Conditionals.{refused};

use crate::command_line::compile::Report;
use crate::command_line::conditionals::{Conditionals, Foreign, conditionals_by, foreign_by};
use crate::command_line::wanted::{Wanted, wanted_by};
use crate::command_line::words::{BOOLEANS, FOREIGN, LIST, OUTPUT, VIOLATIONS};
use clap::ArgMatches;
use std::alloc::{AllocError, Global};

/// The report among what was found.
pub fn report_of(words: &ArgMatches<'_>) -> Report
    ensures { IsReportAsked (rows_of (found_of words.now)) result }
{
    if words.get_flag(VIOLATIONS) {
        Report::Violations
    } else {
        Report::Listing
    }
}

/// What is wanted of projections, by what was found behind `project`; none where the words don't go together.
pub fn wanted_of<'a>(words: &ArgMatches<'a>) -> Option<Wanted<'a>>
    ensures { IsWanted (rows_of (found_of words.now)) (option_map wanted_in result) }
{
    wanted_by(words.get_flag(LIST), words.get_str(OUTPUT))
}

/// Files, where some were found.
pub fn files_or_none<'m>(found: Option<&'m [&'m str]>) -> &'m [&'m str]
    ensures { map (λ path. path.now) result.now
        ≡ unwrap_or (option_map (λ paths. map (λ path. path.now) paths.now) found.entry) [] }
{
    let Some(paths) = found else {
        return &[];
    };
    paths
}

/// How statements outside the language are taken, by what was found behind `compile`.
pub fn foreign_of<'a>(alloc: Global, words: &ArgMatches<'a>) -> Result<Foreign<'a>, AllocError>
    ensures ok { IfOk result (λ foreign.
        foreign_in foreign ≡ foreign_asked (rows_of (found_of words.entry.now))) }
    ensures err { OnErr result (foreign_asked (rows_of (found_of words.entry.now)) ≢ refused) }
{
    foreign_by(alloc, words.get_str(FOREIGN), words.get_str(BOOLEANS))
}

/// How conditional statements are taken, by what was found behind `project`.
pub fn conditionals_of<'a>(
    alloc: Global,
    words: &ArgMatches<'a>,
) -> Result<Option<Conditionals<'a>>, AllocError>
    ensures { IfOk result (λ found. option_map conditionals_in found
        ≡ conditionals_asked (rows_of (found_of words.entry.now))) }
{
    conditionals_by(alloc, words.get_str(BOOLEANS))
}
