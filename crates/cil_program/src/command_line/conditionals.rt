//! How statements outside the language are taken, by the words of the command line.

ghost use Rattle.std.specs.Prelude.{◌≡◌, ◌≢◌, ◌==◌, [], map, option_map, IfOk, OnErr};
ghost use Rattle.std.specs.List.{slice_split};
ghost use Rattle.cil_program.specs.Conditionals.{any_setting_of, conditionals_by, conditionals_in, conditionals_of, foreign_by, foreign_in, front_before, names_by, refused, setting_in, setting_of, settings_of};

use std::alloc::{AllocError, Global};

/// A value that is given to a boolean.
#[derive(Clone, Copy, Debug, PartialEq, Eq)]
pub struct Setting<'a> {
    pub name: &'a [u8],
    pub value: bool,
}

/// How conditional statements are taken.
#[derive(Debug, Drop)]
pub struct Conditionals<'a> {
    /// Whether the rules of both branches are taken, and not those of the branch that holds.
    pub both: bool,
    pub settings: Vec<Setting<'a>>,
}

/// Why the words don't say how statements outside the language are taken.
#[derive(Clone, Copy, Debug, PartialEq, Eq)]
pub enum Misuse {
    /// `--booleans` without `--foreign`.
    NoForeign,
    /// Another value of `--foreign` than `names`.
    OtherForeign,
    /// A value of `--booleans` of no form.
    OtherBooleans,
    /// `--list` with `--output`.
    ListAndOutput,
}

/// How statements outside the language are taken.
#[derive(Debug, Drop)]
pub enum Foreign<'a> {
    Refused,
    /// By their names alone.
    ByNames(Conditionals<'a>),
    /// The words don't say.
    Misused(Misuse),
}

/// What stands in front of an end, where that is something.
fn front_before<'a>(word: &'a [u8], end: &[u8]) -> Option<&'a [u8]>
    ensures { option_map (λ front. front.now) result ≡ front_before end.now word.entry.now }
{
    if end.len() < word.len() {
        word.strip_suffix(end)
    } else {
        None
    }
}

/// `NAME=true` or `NAME=false`.
fn any_setting_of(word: &str) -> Option<Setting<'_>>
    ensures { option_map setting_in result ≡ any_setting_of word.now }
{
    let bytes = word.as_bytes();
    if let Some(name) = front_before(bytes, b"=true") {
        return Some(Setting { name, value: true });
    }
    let name = front_before(bytes, b"=false")?;
    Some(Setting { name, value: false })
}

/// `NAME=true` or `NAME=false`, where NAME has no dot, since booleans are told apart by their last components.
fn setting_of(word: &str) -> Option<Setting<'_>>
    ensures { option_map setting_in result ≡ setting_of word.now }
{
    let setting = any_setting_of(word)?;
    if setting.name.contains(&b'.') {
        return None;
    }
    Some(setting)
}

/// The settings of words, if each is one.
fn settings_of<'a>(alloc: Global, words: &[&'a str]) -> Result<Option<Vec<Setting<'a>>>, AllocError>
    ensures { IfOk result (λ found. option_map (λ settings. map setting_in settings.items) found
        ≡ settings_of (map (λ word. word.now) words.now)) }
{
    let mut settings = Vec::new(alloc);
    for word in words {
        let Some(setting) = setting_of(word) else {
            return Ok(None);
        };
        settings.push(setting)?;
    }
    Ok(Some(settings))
}

/// The parts of a word between its commas.
fn parts_of<'a>(alloc: Global, word: &'a str) -> Result<Vec<&'a str>, AllocError>
    ensures { IfOk result (λ parts. map (λ part. part.now) parts.items
        ≡ slice_split (λ b. b == 44) word.entry.now) }
{
    word.split(',').collect(alloc)
}

fn no_settings<'a>(alloc: Global, both: bool) -> Conditionals<'a>
    ensures { conditionals_in result ≡ record { both = both; settings = [] } }
{
    Conditionals {
        both,
        settings: Vec::new(alloc),
    }
}

/// `default`, `both`, or settings with commas between them.
fn conditionals_of<'a>(alloc: Global, word: &'a str) -> Result<Option<Conditionals<'a>>, AllocError>
    ensures { IfOk result (λ found. option_map conditionals_in found
        ≡ conditionals_of word.entry.now) }
{
    if word == "default" {
        return Ok(Some(no_settings(alloc, false)));
    }
    if word == "both" {
        return Ok(Some(no_settings(alloc, true)));
    }
    let parts = parts_of(alloc, word)?;
    let Some(settings) = settings_of(alloc, parts.as_slice())? else {
        return Ok(None);
    };
    Ok(Some(Conditionals {
        both: false,
        settings,
    }))
}

/// How conditional statements are taken by what `--booleans` says; none where that has no form.
pub fn conditionals_by<'a>(
    alloc: Global,
    booleans: Option<&'a str>,
) -> Result<Option<Conditionals<'a>>, AllocError>
    ensures { IfOk result (λ found. option_map conditionals_in found
        ≡ conditionals_by (option_map (λ word. word.now) booleans.entry)) }
{
    match booleans {
        Some(word) => conditionals_of(alloc, word),
        None => Ok(Some(no_settings(alloc, false))),
    }
}

/// By their names, with what `--booleans` says.
fn names_by<'a>(alloc: Global, booleans: Option<&'a str>) -> Result<Foreign<'a>, AllocError>
    ensures { IfOk result (λ foreign. foreign_in foreign
        ≡ names_by (conditionals_by (option_map (λ word. word.now) booleans.entry))) }
{
    match conditionals_by(alloc, booleans)? {
        Some(conditionals) => Ok(Foreign::ByNames(conditionals)),
        None => Ok(Foreign::Misused(Misuse::OtherBooleans)),
    }
}

/// How statements outside the language are taken by what `--foreign` and `--booleans` say. Memory runs out only where they aren't
/// refused.
pub fn foreign_by<'a>(
    alloc: Global,
    foreign: Option<&str>,
    booleans: Option<&'a str>,
) -> Result<Foreign<'a>, AllocError>
    ensures ok { IfOk result (λ answer. foreign_in answer
        ≡ foreign_by (option_map (λ word. word.now) foreign.entry)
        (option_map (λ word. word.now) booleans.entry)) }
    ensures err { OnErr result (foreign_by (option_map (λ word. word.now) foreign.entry)
        (option_map (λ word. word.now) booleans.entry) ≢ refused) }
{
    match foreign {
        Some(word) if word == "names" => names_by(alloc, booleans),
        Some(_) => Ok(Foreign::Misused(Misuse::OtherForeign)),
        None if booleans.is_some() => Ok(Foreign::Misused(Misuse::NoForeign)),
        None => Ok(Foreign::Refused),
    }
}

impl Misuse {
    ghost use Rattle.std.specs.Prelude.{◌≡◌};
    ghost use Rattle.cil_program.specs.Conditionals.{misuse_line};

    /// Why the words are refused.
    pub fn line(self) -> &'static [u8]
        ensures { result.now ≡ misuse_line self }
    {
        match self {
            Misuse::NoForeign => b"error: '--booleans' goes with '--foreign names'\n",
            Misuse::OtherForeign => b"error: '--foreign' takes the word names alone\n",
            Misuse::OtherBooleans => {
                b"error: '--booleans' takes default, both, or NAME=true and NAME=false with commas between them; a NAME has no dots\n"
            }
            Misuse::ListAndOutput => b"error: '--list' and '--output' don't go together\n",
        }
    }
}
