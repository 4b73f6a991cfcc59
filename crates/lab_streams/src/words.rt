//! All that the words after `draw`, `play`, `live` and `orders` ask for.
ghost use Rattle.std.specs.Prelude.{◌≡◌, codes, option_map, unwrap_or};
ghost use Rattle.clap.specs.Words.{first_value, found_of};
ghost use Rattle.lab_streams.specs.Words as words;
ghost use Rattle.lab_streams.specs.OrderWords.{Shows};
ghost use Rattle.lab_streams.specs.Words.{AsksFor};

use clap::ArgMatches;

/// The form of a picture.
#[derive(Clone, Copy, PartialEq, Eq)]
pub enum Form {
    Svg,
    Events,
}

/// Which way a picture as SVG goes.
#[derive(Clone, Copy, PartialEq, Eq)]
pub enum Way {
    Down,
    Across,
    /// Down, if it is short.
    Fitting,
}

/// All that `draw` asks for.
#[derive(Clone, Copy, PartialEq, Eq)]
pub struct Drawing {
    pub form: Form,
    pub way: Way,
    /// How many lines are drawn at most; all where no number is there.
    pub upto: Option<u32>,
    /// The page of a picture that is long, from 1.
    pub page: u32,
}

/// The report of a scenario that was played.
#[derive(Clone, Copy, PartialEq, Eq)]
pub enum Telling<'a> {
    /// Its trace.
    Trace,
    /// A line of JSON for each entry.
    Json,
    /// The place at which it differs first from the trace that this folder has of it.
    Against(&'a str),
}

/// All that `play` asks for.
#[derive(Clone, Copy, PartialEq, Eq)]
pub struct Playing<'a> {
    /// The file of the bank; the program's where none is named.
    pub bank: Option<&'a str>,
    /// The limit in place of each scenario's: 1 to 1,000,000.
    pub limit: Option<u32>,
    pub telling: Telling<'a>,
}

/// All that `live` asks for.
#[derive(Clone, Copy, PartialEq, Eq)]
pub struct Driving<'a> {
    /// The scenario that comes first.
    pub file: Option<&'a str>,
    /// The file of the bank; the program's where none is named.
    pub bank: Option<&'a str>,
    /// The limit in place of the scenario's: 1 to 1,000,000.
    pub limit: Option<u32>,
}

/// All that `convert` asks for: lines, or a scenario; the form that the text hasn't where neither is named.
#[derive(Clone, Copy, PartialEq, Eq)]
pub struct Converting {
    pub lines: bool,
    pub toml: bool,
}

// Whether a word without a value is there.
fn is_set(matches: &ArgMatches<'_>, id: &str) -> bool
    ensures { result ≡ words.is_set (found_of matches.now) id.now }
{
    matches.get_one(id).unwrap_or(false)
}

// The number after a word.
fn number_at(matches: &ArgMatches<'_>, id: &str) -> Option<u32>
    ensures { result ≡ words.number_at (found_of matches.now) id.now }
{
    matches.get_one(id)
}

// The form that is asked for.
fn form_of(matches: &ArgMatches<'_>) -> Form
    ensures { result ≡ words.form_of (found_of matches.now) }
{
    if is_set(matches, "perfetto") {
        Form::Events
    } else {
        Form::Svg
    }
}

// The way that is asked for.
fn way_of(matches: &ArgMatches<'_>) -> Way
    ensures { result ≡ words.way_of (found_of matches.now) }
{
    if is_set(matches, "down") {
        Way::Down
    } else if is_set(matches, "across") {
        Way::Across
    } else {
        Way::Fitting
    }
}

/// All that is printed of orders, or which order alone is asked for.
#[derive(Clone, Copy, PartialEq, Eq)]
pub enum Shown<'a> {
    /// The report.
    Report,
    /// The same as JSON.
    Json,
    /// The scenario of the outcome with this number alone, from 1.
    Outcome(u32),
    /// The scenario of the first order to a moment as the question with this number looks for, from 1.
    State(u32),
    /// The result of what is asked alone: answers of callers of whom nobody asks are forgotten.
    Alone,
    /// The scenario of the order that this text says.
    Order(&'a str),
    /// Which answers came at each step, and in how many orders each.
    Answers,
}

/// All that `orders` is asked for: the file of a bank, how many moments one number of steps may lead to, what is
/// printed, and the text.
#[derive(Clone, Copy, Drop)]
pub struct Asked<'a> {
    pub bank: Option<&'a str>,
    pub most: usize,
    pub shown: Shown<'a>,
    pub file: Option<&'a str>,
}

impl<'a> Asked<'a> {
    /// How the text is called in messages.
    pub fn name(&self) -> &'a str
        ensures { result.now ≡ unwrap_or (option_map (λ file. file.now) self.now.file) (codes "-") }
    {
        self.file.unwrap_or("-")
    }
}

/// All that `draw` is asked for.
pub fn drawing_of(matches: &ArgMatches<'_>) -> Drawing
    ensures form { result.form ≡ words.form_of (found_of matches.now) }
    ensures way { result.way ≡ words.way_of (found_of matches.now) }
    ensures upto { result.upto ≡ words.number_at (found_of matches.now) (codes "upto") }
    ensures page { result.page ≡ unwrap_or (words.number_at (found_of matches.now) (codes "page")) 1 }
{
    Drawing {
        form: form_of(matches),
        way: way_of(matches),
        upto: number_at(matches, "upto"),
        page: number_at(matches, "page").unwrap_or(1),
    }
}

// All that is to be reported of the scenarios that are played.
fn telling_of<'a>(matches: &ArgMatches<'a>) -> Telling<'a>
    ensures { AsksFor (found_of matches.now) result }
{
    if is_set(matches, "json") {
        return Telling::Json;
    }
    match matches.get_str("against") {
        Some(folder) => Telling::Against(folder),
        None => Telling::Trace,
    }
}

// rule: The part and its options are those that `clap` found in the command line.
//   clauses: playing_of; drawing_of; driving_of; asked_of
/// All that `play` is asked for.
pub fn playing_of<'a>(matches: &ArgMatches<'a>) -> Playing<'a>
    ensures bank { option_map (λ file. file.now) result.bank ≡ first_value (found_of matches.now) (codes "bank") }
    ensures limit { result.limit ≡ words.number_at (found_of matches.now) (codes "limit") }
    ensures telling { AsksFor (found_of matches.now) result.telling }
{
    Playing {
        bank: matches.get_str("bank"),
        limit: number_at(matches, "limit"),
        telling: telling_of(matches),
    }
}

/// All that `live` is asked for.
pub fn driving_of<'a>(matches: &ArgMatches<'a>) -> Driving<'a>
    ensures file { option_map (λ file. file.now) result.file ≡ first_value (found_of matches.now) (codes "FILE") }
    ensures bank { option_map (λ file. file.now) result.bank ≡ first_value (found_of matches.now) (codes "bank") }
    ensures limit { result.limit ≡ words.number_at (found_of matches.now) (codes "limit") }
{
    Driving {
        file: matches.get_str("FILE"),
        bank: matches.get_str("bank"),
        limit: number_at(matches, "limit"),
    }
}

// All that is printed of orders, or which order alone is asked for.
fn shown_of<'a>(matches: &ArgMatches<'a>) -> Shown<'a>
    ensures { Shows (found_of matches.now) result }
{
    if is_set(matches, "json") {
        return Shown::Json;
    }
    if is_set(matches, "ask") {
        return Shown::Alone;
    }
    if let Some(order) = matches.get_str("order") {
        return Shown::Order(order);
    }
    if let Some(number) = number_at(matches, "outcome") {
        return Shown::Outcome(number);
    }
    if let Some(number) = number_at(matches, "state") {
        return Shown::State(number);
    }
    if is_set(matches, "answers") {
        Shown::Answers
    } else {
        Shown::Report
    }
}

/// All that `orders` is asked for.
pub fn asked_of<'a>(matches: &ArgMatches<'a>) -> Asked<'a>
    ensures bank { option_map (λ file. file.now) result.bank ≡ first_value (found_of matches.now) (codes "bank") }
    ensures most { result.most ≡ unwrap_or (words.number_at (found_of matches.now) (codes "most")) 100000 }
    ensures shown { Shows (found_of matches.now) result.shown }
    ensures file { option_map (λ file. file.now) result.file ≡ first_value (found_of matches.now) (codes "FILE") }
{
    Asked {
        bank: matches.get_str("bank"),
        most: number_at(matches, "most").unwrap_or(100_000) as usize,
        shown: shown_of(matches),
        file: matches.get_str("FILE"),
    }
}

/// All that `convert` is asked for.
pub fn converting_of(matches: &ArgMatches<'_>) -> Converting
    ensures lines { result.lines ≡ words.is_set (found_of matches.now) (codes "lines") }
    ensures toml { result.toml ≡ words.is_set (found_of matches.now) (codes "toml") }
{
    Converting {
        lines: is_set(matches, "lines"),
        toml: is_set(matches, "toml"),
    }
}
