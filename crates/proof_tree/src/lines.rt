//! The lines of a plan document, read back.

ghost use Rattle.std.specs.Prelude.{◌≡◌, ◌≤◌, [], IfNone, IfSome, option_map};
ghost use Rattle.std.specs.List.{list_all};
ghost use Rattle.std.specs.Result.{result_ok};
ghost use Rattle.proof_tree.specs.Grammar.{TakesValue, item_of, form, is_number, is_one, plan_number};
ghost use Rattle.proof_tree.specs.Grammar as grammar;
ghost use Rattle.proof_tree.specs.PlanLines.{meaning};

use ttw_text::{Parts, is_name, read_up_to, words};

/// The greatest number of a plan document.
const GREATEST: u64 = 2_000_000_000_000;

/// What a line says. Parts give the numbers or names of the line, whose spelling was tested (`value`
/// is the number of a word); they borrow the line.
#[derive(Drop)]
pub enum PlanLine<'a> {
    /// `ttw 1`: the first line.
    Head,
    /// `mode NAME`: the next mode of the file.
    Mode(&'a [u8]),
    /// `refute R`: a tree for R rounds.
    Refute(u64),
    /// `branch`: a node with one child per alternative.
    Branch,
    /// `short`: a node of too few slots.
    Short,
    /// `full J`: a node of an overfull round.
    Full(u64),
    /// `cycle N ..`: a node of a negative cycle, with the numbers of its constraints.
    Cycle(Parts<'a>),
    /// `schedule R`: a schedule of R rounds.
    Schedule(u64),
    /// `start TIME ..`: the starts of its rounds.
    Start(Parts<'a>),
    /// `task NAME O`: a task and the offset of its first run.
    Task(&'a [u8], u64),
    /// `message NAME O Q`: a message, and where its first window opens and closes.
    Message(&'a [u8], u64, u64),
    /// `table J NAME ..`: the messages of round J.
    Table(u64, Parts<'a>),
    /// `none`: the mode has no schedule.
    Absent,
    /// `end`: the last line.
    End,
}

/// A line that has none of the forms.
#[derive(Clone, Copy, Debug, PartialEq, Eq)]
pub struct BadLine;

/// The number that a word spells, where it is within a document's limit.
fn number(word: &[u8]) -> Option<u64>
    ensures { result ≡ plan_number word.now }
{
    read_up_to(word, GREATEST)
}

/// The number that a word of a line spells, where it is within a document's limit, else 0.
pub fn value(word: &[u8]) -> u64
    ensures number { result ≡ grammar.value word.now }
    ensures few { result ≤ 2000000000000 }
{
    number(word).unwrap_or(0)
}

/// Takes the next word of a line, and answers its `value`; `None` stands for the end of the line.
pub fn next_value(parts: &mut Parts<'_>) -> Option<u64>
    ensures end { IfNone result ((parts.old ≡ []) × (parts.new ≡ [])) }
    ensures value { IfSome result (λ n. TakesValue parts.old parts.new n) }
    ensures few { IfSome result (λ n. n ≤ 2000000000000) }
{
    match parts.next_number(GREATEST)? {
        Some(number) => Some(number),
        None => Some(0),
    }
}

/// The number, where one word is left and is one.
fn one_number(parts: Parts<'_>) -> Option<u64>
    ensures { result ≡ grammar.one_number parts.entry }
{
    number(parts.only()?)
}

/// Whether all words are numbers.
fn are_numbers(parts: &Parts<'_>) -> bool
    ensures { result ≡ list_all is_number parts.now }
{
    let mut left = parts.again();
    while let Some(number) = left.next_number(GREATEST) {
        if number.is_none() {
            return false;
        }
    }
    true
}

/// The words, where they are numbers, and one or more.
fn some_numbers(parts: Parts<'_>) -> Option<Parts<'_>>
    ensures { result ≡ grammar.some_numbers parts.entry }
{
    if parts.is_empty() || !are_numbers(&parts) {
        return None;
    }
    Some(parts)
}

/// A number and names.
fn number_names(mut parts: Parts<'_>) -> Option<(u64, Parts<'_>)>
    ensures { result ≡ grammar.number_names parts.entry }
{
    let round = number(parts.next()?)?;
    if !parts.are_names() {
        return None;
    }
    Some((round, parts))
}

/// Whether the number 1 is left.
fn is_version(parts: Parts<'_>) -> bool
    ensures { result ≡ is_one parts.entry }
{
    parts.only().is_some_and(|word| word == "1".as_bytes())
}

/// A name and a number.
fn name_number(mut parts: Parts<'_>) -> Option<(&[u8], u64)>
    ensures { option_map (λ t. (t.0.now, t.1)) result ≡ grammar.name_number parts.entry }
{
    let name = parts.next().filter(|word| is_name(word))?;
    let offset = one_number(parts)?;
    Some((name, offset))
}

/// Two numbers.
fn two_numbers(mut parts: Parts<'_>) -> Option<(u64, u64)>
    ensures { result ≡ grammar.two_numbers parts.entry }
{
    let opens = number(parts.next()?)?;
    let closes = one_number(parts)?;
    Some((opens, closes))
}

/// A name and two numbers.
fn name_numbers(mut parts: Parts<'_>) -> Option<(&[u8], u64, u64)>
    ensures { option_map (λ t. (t.0.now, (t.1, t.2))) result ≡ grammar.name_numbers parts.entry }
{
    let name = parts.next().filter(|word| is_name(word))?;
    let (opens, closes) = two_numbers(parts)?;
    Some((name, opens, closes))
}

/// What a line says that begins with this word and goes on with these parts.
fn form_of<'a>(word: &[u8], parts: Parts<'a>) -> Option<PlanLine<'a>>
    ensures { option_map meaning result ≡ form word.now parts.entry }
{
    if word == "branch".as_bytes() {
        return parts.is_empty().then_some(PlanLine::Branch);
    }
    if word == "short".as_bytes() {
        return parts.is_empty().then_some(PlanLine::Short);
    }
    if word == "full".as_bytes() {
        return Some(PlanLine::Full(one_number(parts)?));
    }
    if word == "refute".as_bytes() {
        return Some(PlanLine::Refute(one_number(parts)?));
    }
    if word == "cycle".as_bytes() {
        return Some(PlanLine::Cycle(some_numbers(parts)?));
    }
    if word == "start".as_bytes() {
        return Some(PlanLine::Start(some_numbers(parts)?));
    }
    if word == "table".as_bytes() {
        let (round, names) = number_names(parts)?;
        return Some(PlanLine::Table(round, names));
    }
    if word == "mode".as_bytes() {
        return Some(PlanLine::Mode(parts.only_name()?));
    }
    if word == "ttw".as_bytes() {
        return is_version(parts).then_some(PlanLine::Head);
    }
    if word == "none".as_bytes() {
        return parts.is_empty().then_some(PlanLine::Absent);
    }
    if word == "schedule".as_bytes() {
        return Some(PlanLine::Schedule(one_number(parts)?));
    }
    if word == "task".as_bytes() {
        let (name, offset) = name_number(parts)?;
        return Some(PlanLine::Task(name, offset));
    }
    if word == "message".as_bytes() {
        let (name, opens, closes) = name_numbers(parts)?;
        return Some(PlanLine::Message(name, opens, closes));
    }
    if word == "end".as_bytes() {
        return parts.is_empty().then_some(PlanLine::End);
    }
    None
}

/// What a line says, without its line feed. An `Err` comes exactly where it has none of the forms.
/// Takes no memory.
pub fn item(line: &[u8]) -> Result<PlanLine<'_>, BadLine>
    ensures { option_map meaning (result_ok result) ≡ item_of line.now }
{
    let mut parts = words(line);
    let word = parts.next().ok_or(BadLine)?;
    form_of(word, parts).ok_or(BadLine)
}
