// The command line, read by `clap`.
ghost use Rattle.std.specs.Option.{option_map};
ghost use Rattle.clap.specs.Words.{subcommand_rows_of, subcommand_of};
ghost use Rattle.std.specs.Prelude.{◌≡◌, ◌≤◌, ◌<◌, ◌^◌, [], map, codes, Some, None, true, false};
ghost use Rattle.std.specs.Prelude.{IfOk, IfErr};
ghost use Rattle.std.specs.String.{string_bytes};
ghost use Rattle.clap.specs.Words.{app_of, rule_of};
ghost use Rattle.clap.specs.declared.builder.command.Command.TheViews.{out-Command as fields_of};
ghost use Rattle.command_words.specs.Words.{number_option, flag, required, required_number};
ghost use Rattle.command_words.specs.Words.{page_command, make_command, batch_command, specparse};
ghost use Rattle.command_words.specs.Words.{AreInGrammar, value_of, text_from, number_from};
ghost use Rattle.command_words.specs.Words.{flag_from, is_make, is_batch, page_asked, make_asked};
ghost use Rattle.command_words.specs.Words.{batch_asked, asked, shown, batch_shown, asked_for};
ghost use Rattle.command_words.specs.Words.{AreWithin};

use clap::builder::ValueParser;
use clap::error::ErrorKind;
use clap::{Arg, ArgAction, ArgMatches, Command};
use std::alloc::{AllocError, Global};

/// What the words ask for.
#[derive(Drop)]
pub enum CommandWords {
    /// The command `page`.
    Page(PageWords),
    /// The command `make`.
    Make(MakeWords),
    /// The command `batch`.
    Batch(BatchWords),
}

/// What the words of the command `page` ask for.
#[derive(Drop)]
pub struct PageWords {
    /// The page's path.
    pub page: String,
    /// The path of the scripts' folder.
    pub dir: String,
    /// The path of the entities file.
    pub entities: String,
    /// The most bytes of one read of the page: 1 to 65,536.
    pub piece: usize,
    /// How many requests may be sent ahead of their replies: 1 to 64.
    pub ahead: usize,
    /// How many fetch scripts before they are awaited: 0 to 8.
    pub preload: usize,
    /// Whether the tree's dump is written in place of its text.
    pub dump: bool,
    /// How many watch the tree while it grows: 0 to 8.
    pub watch: usize,
}

/// What the words of the command `make` ask for: a page that is made from a number.
#[derive(Clone, Copy)]
pub struct MakeWords {
    /// The number that chooses the page's items: 0 to 2,147,483,647.
    pub number: u32,
    /// How many items there are: 1 to 50,000.
    pub count: u32,
}

/// What the words of the command `batch` ask for: the pages of a list.
#[derive(Drop)]
pub struct BatchWords {
    /// The list's path.
    pub list: String,
    /// The path of the scripts' folder.
    pub dir: String,
    /// The path of the entities file.
    pub entities: String,
}

/// Why the words weren't read.
#[derive(Clone, Copy)]
pub enum Refused {
    /// They aren't in the command's grammar.
    Usage,
    NoMemory,
}

impl From<AllocError> for Refused {
    ghost use Rattle.command_words.specs.declared.words.Refused.TheVariants as refusals;

    ghost from_gives = { λ _ refused. refused ≡ refusals.NoMemory };

    fn from(_error: AllocError) -> Refused {
        Refused::NoMemory
    }
}

fn number_option<'a>(alloc: Global, name: &'a str, least: u64, most: u64) -> Arg<'a>
    ensures rule { rule_of result ≡ number_option name.entry.now least most }
    ensures local { result.global ≡ false }
{
    Arg::new(alloc, name)
        .long(name)
        .value_parser(ValueParser::Unsigned(least, most))
}

fn flag<'a>(alloc: Global, name: &'a str) -> Arg<'a>
    ensures rule { rule_of result ≡ flag name.entry.now }
    ensures local { result.global ≡ false }
{
    Arg::new(alloc, name).long(name).action(ArgAction::SetTrue)
}

fn required<'a>(alloc: Global, name: &'a str) -> Arg<'a>
    ensures rule { rule_of result ≡ required name.entry.now }
    ensures local { result.global ≡ false }
{
    Arg::new(alloc, name).required(true)
}

fn required_number<'a>(alloc: Global, name: &'a str, least: u64, most: u64) -> Arg<'a>
    ensures rule { rule_of result ≡ required_number name.entry.now least most }
    ensures local { result.global ≡ false }
{
    Arg::new(alloc, name)
        .required(true)
        .value_parser(ValueParser::Unsigned(least, most))
}

fn page_command<'a>(alloc: Global) -> Result<Command<'a>, AllocError>
    ensures { IfOk result (λ c. (app_of c ≡ page_command) × ((fields_of c).has_globals ≡ false)) }
{
    Command::new(alloc, "page")
        .arg(number_option(alloc, "piece", 1, 65536))?
        .arg(number_option(alloc, "ahead", 1, 64))?
        .arg(number_option(alloc, "preload", 0, 8))?
        .arg(flag(alloc, "dump"))?
        .arg(number_option(alloc, "watch", 0, 8))?
        .arg(required(alloc, "PAGE"))?
        .arg(required(alloc, "DIR"))?
        .arg(required(alloc, "ENTITIES"))
}

fn make_command<'a>(alloc: Global) -> Result<Command<'a>, AllocError>
    ensures { IfOk result (λ c. (app_of c ≡ make_command) × ((fields_of c).has_globals ≡ false)) }
{
    Command::new(alloc, "make")
        .arg(required_number(alloc, "NUMBER", 0, 2_147_483_647))?
        .arg(required_number(alloc, "COUNT", 1, 50_000))
}

fn batch_command<'a>(alloc: Global) -> Result<Command<'a>, AllocError>
    ensures { IfOk result (λ c. (app_of c ≡ batch_command) × ((fields_of c).has_globals ≡ false)) }
{
    Command::new(alloc, "batch")
        .arg(required(alloc, "LIST"))?
        .arg(required(alloc, "DIR"))?
        .arg(required(alloc, "ENTITIES"))
}

fn specparse<'a>(alloc: Global) -> Result<Command<'a>, AllocError>
    ensures { IfOk result (λ c. app_of c ≡ specparse) }
{
    let page = page_command(alloc)?;
    let make = make_command(alloc)?;
    let batch = batch_command(alloc)?;
    Command::new(alloc, "specparse")
        .subcommand_required(true)
        .subcommand(page)?
        .subcommand(make)?
        .subcommand(batch)
}

// The matches, where the words are in the grammar.
fn matches_of<'a>(alloc: Global, words: &'a [String]) -> Result<ArgMatches<'a>, Refused>
    ensures taken { IfOk result (λ _. AreInGrammar (map string_bytes words.entry.now)) }
    ensures usage { IfErr result
        (λ refused. refused ≡ Refused.Usage → ¬ (AreInGrammar (map string_bytes words.entry.now))) }
    ensures rows { IfOk result
        (λ m. subcommand_rows_of m ≡ subcommand_of specparse (map string_bytes words.entry.now)) }
{
    let Ok(command) = specparse(alloc) else {
        return Err(Refused::NoMemory);
    };
    match command.try_get_matches_from(words) {
        Ok(matches) => Ok(matches),
        Err(error) => {
            if error.kind() == ErrorKind::OutOfMemory {
                Err(Refused::NoMemory)
            } else {
                Err(Refused::Usage)
            }
        }
    }
}

// The value of an argument.
fn value_of<'a>(matches: &ArgMatches<'a>, name: &str) -> Option<&'a str>
    ensures { option_map (λ value. value.now) result
        ≡ value_of name.now (subcommand_rows_of matches.now) }
{
    let (_, command) = matches.subcommand()?;
    command.get_str(name)
}

fn text_of<'a>(matches: &ArgMatches<'a>, name: &str) -> &'a str
    ensures { result.now ≡ text_from (value_of name.now (subcommand_rows_of matches.now)) }
{
    match value_of(matches, name) {
        Some(text) => text,
        None => "",
    }
}

// The number from `least` to `most` that the text writes.
fn number_in(text: &str, least: usize, most: usize, otherwise: usize) -> usize
    ensures { result ≡ number_from least most otherwise (Some text.now) }
{
    match text.parse::<usize>() {
        Ok(number) => if number < least || most < number {
            otherwise
        } else {
            number
        },
        Err(_) => otherwise,
    }
}

fn number_of(
    matches: &ArgMatches<'_>,
    name: &str,
    least: usize,
    most: usize,
    otherwise: usize,
) -> usize
    ensures { result
        ≡ number_from least most otherwise (value_of name.now (subcommand_rows_of matches.now)) }
{
    match value_of(matches, name) {
        Some(text) => number_in(text, least, most, otherwise),
        None => otherwise,
    }
}

// Whether the flag is given: its text is "true" then, and else "false".
fn is_given(matches: &ArgMatches<'_>, name: &str) -> bool
    ensures { result ≡ flag_from (value_of name.now (subcommand_rows_of matches.now)) }
{
    text_of(matches, name) == "true"
}

// Whether the command `make` is asked for.
fn is_make(matches: &ArgMatches<'_>) -> bool
    ensures { result ≡ is_make (subcommand_rows_of matches.now) }
{
    match matches.subcommand() {
        Some((name, _)) => name == "make",
        None => false,
    }
}

// Whether the command `batch` is asked for.
fn is_batch(matches: &ArgMatches<'_>) -> bool
    ensures { result ≡ is_batch (subcommand_rows_of matches.now) }
{
    match matches.subcommand() {
        Some((name, _)) => name == "batch",
        None => false,
    }
}

fn page_words(alloc: Global, matches: &ArgMatches<'_>) -> Result<PageWords, AllocError>
    ensures { IfOk result (λ read. shown read ≡ page_asked (subcommand_rows_of matches.now)) }
{
    Ok(PageWords {
        page: String::from_str(alloc, text_of(matches, "PAGE"))?,
        dir: String::from_str(alloc, text_of(matches, "DIR"))?,
        entities: String::from_str(alloc, text_of(matches, "ENTITIES"))?,
        piece: number_of(matches, "piece", 1, 65536, 4096),
        ahead: number_of(matches, "ahead", 1, 64, 8),
        preload: number_of(matches, "preload", 0, 8, 0),
        dump: is_given(matches, "dump"),
        watch: number_of(matches, "watch", 0, 8, 0),
    })
}

fn make_words(matches: &ArgMatches<'_>) -> MakeWords
    ensures { result ≡ make_asked (subcommand_rows_of matches.now) }
{
    MakeWords {
        number: number_of(matches, "NUMBER", 0, 2_147_483_647, 0) as u32,
        count: number_of(matches, "COUNT", 1, 50_000, 1) as u32,
    }
}

fn batch_words(alloc: Global, matches: &ArgMatches<'_>) -> Result<BatchWords, AllocError>
    ensures { IfOk result
        (λ read. batch_shown read ≡ batch_asked (subcommand_rows_of matches.now)) }
{
    Ok(BatchWords {
        list: String::from_str(alloc, text_of(matches, "LIST"))?,
        dir: String::from_str(alloc, text_of(matches, "DIR"))?,
        entities: String::from_str(alloc, text_of(matches, "ENTITIES"))?,
    })
}

/// Reads the words of the command, of which the program's name is the first. `Usage` comes exactly
/// where the command's grammar doesn't take them, but where memory runs out.
pub fn read_words(alloc: Global, words: &[String]) -> Result<CommandWords, Refused>
    ensures ok { IfOk result (λ read. Some (asked_for read) ≡ asked (map string_bytes words.now)) }
    ensures usage { IfErr result
        (λ refused. refused ≡ Refused.Usage → asked (map string_bytes words.now) ≡ None) }
    ensures within { IfOk result (λ read. AreWithin read) }
{
    let matches = match matches_of(alloc, words) {
        Ok(matches) => matches,
        Err(refused) => return Err(refused),
    };
    if is_make(&matches) {
        Ok(CommandWords::Make(make_words(&matches)))
    } else if is_batch(&matches) {
        Ok(CommandWords::Batch(batch_words(alloc, &matches)?))
    } else {
        Ok(CommandWords::Page(page_words(alloc, &matches)?))
    }
}
