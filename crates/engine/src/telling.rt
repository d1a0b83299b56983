//! What flags ask for behind the ending of a run, or of a check: what became of loops, what there
//! is to explain, and further rules.

ghost use Rattle.std.specs.Prelude.{◌≡◌, [], IfOk, true};
ghost use Rattle.std.specs.List.{list_any};
ghost use Rattle.cell_names.specs.Cells.{are_named};
ghost use Rattle.messages.specs.Shown.{Adds, IsTold};
ghost use Rattle.engine.specs.Explained.{Explains, IsExplained, IsExplainedBy, IsKnownFor};
ghost use Rattle.engine.specs.Explained.{IsKnownIn, IsUnitRead};
ghost use Rattle.engine.specs.Told.{AreAlso, ArePairs, AreStages, IsOutline, IsOutlineOf, IsPair};
ghost use Rattle.engine.specs.Told.{IsPairMatter, explained_first, has_name, is_alone};
ghost use Rattle.engine.specs.Told.{is_explained, is_further, is_named, is_staged, not_told};

use crate::lines::put_at;
use all_breaches::further_pairs;
use cell_names::{Named, names_of};
use command_line::asked::{Options, Speculation};
use do_statements::{DoStatement, do_statements};
use in_order::{program_in, unit_in};
use loop_reports::{Row, told_loops};
use meaning::ending::Ending;
use meaning::refusal::{Broken, Refusal, Rule};
use meaning::syntax::Tree;
use messages::{
    Cause, Known, Matter, about_of, known_of, known_unread, matter_of_rule, put, put_about,
    put_bytes, put_line, tell_hint,
};
use record_sinks::Sink;
use std::alloc::{AllocError, Global};
use std::collections::BTreeMap;

/// Whether stages are told of: of a run, but for one whose records were refused.
pub fn is_staged(asked: &Options<'_>, ending: &Ending) -> bool
    ensures { result ≡ is_staged asked.now ending.now }
{
    match ending {
        Ending::WriteRefused => false,
        _ => asked.stages && !asked.check,
    }
}

/// Whether further rules are told of: of a check that refuses the source.
pub fn is_further(asked: &Options<'_>, ending: &Ending) -> bool
    ensures { result ≡ is_further asked.now ending.now }
{
    match ending {
        Ending::Refused(_, _) => asked.check,
        _ => false,
    }
}

/// The rule that is explained before all others, if rules are explained.
pub fn explained_first(asked: &Options<'_>, ending: &Ending) -> Option<Rule>
    ensures { result ≡ explained_first asked.now ending.now }
{
    match ending {
        Ending::Refused(rule, _) => if asked.explain { Some(*rule) } else { None },
        _ => None,
    }
}

/// Whether one worker alone executes all, so that no DO statement is run by stages.
pub fn is_alone(asked: &Options<'_>) -> bool
    ensures { result ≡ is_alone asked.now }
{
    match asked.speculate {
        Speculation::Never => true,
        Speculation::Adaptive => asked.plan.workers() < 2,
        Speculation::Always => asked.plan.workers() < 2,
    }
}

/// Writes what became of DO statements by stages, if that is wanted.
pub fn tell_stages<S: Sink>(
    is_wanted: bool,
    is_alone: bool,
    alloc: Global,
    source: &[u8],
    rows: Result<BTreeMap<u32, Row>, AllocError>,
    turns: Option<u64>,
    err: &mut S,
)
    ensures { Adds is_wanted (AreStages source.now is_alone turns) (S.told err.old)
        (S.told err.new) }
{
    if is_wanted {
        put_stages(is_alone, alloc, source, rows, turns, err);
    } else {
        drop(rows);
    }
}

// Writes what became of DO statements by stages.
fn put_stages<S: Sink>(
    is_alone: bool,
    alloc: Global,
    source: &[u8],
    rows: Result<BTreeMap<u32, Row>, AllocError>,
    turns: Option<u64>,
    err: &mut S,
)
    ensures { Adds true (AreStages source.now is_alone turns) (S.told err.old) (S.told err.new) }
{
    match stage_lines(is_alone, alloc, source, rows, turns) {
        Ok(lines) => put_bytes(&lines, err),
        Err(_) => put_untold(err),
    }
}

// The lines on DO statements by stages. The `AllocError` comes where a growth was refused, now or
// while the program ran.
fn stage_lines(
    is_alone: bool,
    alloc: Global,
    source: &[u8],
    rows: Result<BTreeMap<u32, Row>, AllocError>,
    turns: Option<u64>,
) -> Result<Vec<u8>, AllocError>
    ensures { IfOk result (λ lines. AreStages source.now is_alone turns lines.items) }
{
    let rows = rows?;
    let outline = outline_in(alloc, source)?;
    told_loops(
        alloc,
        &outline.names,
        &outline.statements,
        &rows,
        is_alone,
        turns,
    )
}

// What messages on loops need of a program: its variables and arrays, and its DO statements.
#[derive(Drop)]
struct Outline {
    names: Vec<Named>,
    statements: Vec<DoStatement>,
}

// That of the program that a source spells, nothing where it is refused.
fn outline_in(alloc: Global, source: &[u8]) -> Result<Outline, AllocError>
    ensures { IfOk result
        (λ o. IsOutlineOf source.now (are_named o.names.items) o.statements.items) }
{
    match program_in(alloc, source) {
        Ok(program) => {
            let outline = outline_of(alloc, program.tree());
            drop(program);
            outline
        }
        Err(Refusal::Rule { rule: _, line: _ }) => Ok(Outline {
            names: Vec::new(alloc),
            statements: Vec::new(alloc),
        }),
        Err(Refusal::Memory) => Err(AllocError),
    }
}

// That of a program that keeps the rules.
fn outline_of(alloc: Global, tree: &Tree) -> Result<Outline, AllocError>
    ensures { IfOk result (λ o. IsOutline tree.now (are_named o.names.items) o.statements.items) }
{
    let names = names_of(alloc, tree)?;
    let statements = do_statements(alloc, tree)?;
    Ok(Outline { names, statements })
}

/// Writes what there is to explain, if that is wanted.
pub fn tell_matter<S: Sink>(
    is_wanted: bool,
    alloc: Global,
    file: &str,
    source: &[u8],
    matter: Option<Matter>,
    detail: Result<Vec<u8>, AllocError>,
    err: &mut S,
)
    ensures { Adds is_wanted (Explains file.now source.now matter) (S.told err.old)
        (S.told err.new) }
{
    if is_wanted {
        if let Some(matter) = matter {
            let known = known_for(alloc, source, matter, detail);
            put_known(alloc, file, source, matter, known, err);
            return;
        }
    }
    drop(detail);
}

// What is known of a matter beside its line: of a fault what is given, and of a rule what breaks
// it.
fn known_for(
    alloc: Global,
    source: &[u8],
    matter: Matter,
    detail: Result<Vec<u8>, AllocError>,
) -> Result<Known, AllocError>
    ensures { IfOk result (IsKnownFor source.now matter.rule matter.line) }
{
    match matter.rule {
        Some(_) => {
            drop(detail);
            let unit = unit_in(alloc, source);
            let known = known_by(alloc, source, &unit, matter);
            drop(unit);
            known
        }
        None => match detail {
            Ok(text) => Ok(Known { place: None, text }),
            Err(error) => Err(error),
        },
    }
}

// What breaks the rule of a matter, by the program unit that the source spells.
fn known_by(
    alloc: Global,
    source: &[u8],
    unit: &Result<Tree, Refusal>,
    matter: Matter,
) -> Result<Known, AllocError>
    requires { IsUnitRead source.now unit.now }
    ensures { IfOk result (IsKnownFor source.now matter.rule matter.line) }
{
    match matter.rule {
        Some(rule) => known_in(alloc, source, unit, rule, matter.line),
        None => Ok(Known::nothing(alloc)),
    }
}

// What breaks a rule at a line of a source that spells a program unit, or as what the statement
// there is read that has no reading.
fn known_in(
    alloc: Global,
    source: &[u8],
    unit: &Result<Tree, Refusal>,
    rule: Rule,
    line: u32,
) -> Result<Known, AllocError>
    requires { IsUnitRead source.now unit.now }
    ensures { IfOk result (IsKnownIn source.now rule line) }
{
    match unit {
        Ok(unit) => known_of(alloc, source, unit, rule, line),
        Err(refusal) => match *refusal {
            Refusal::Rule { rule: _, line: _ } => known_unread(alloc, source, rule, line),
            Refusal::Memory => Err(AllocError),
        },
    }
}

// Writes what there is to explain, with what is known of it.
fn put_known<S: Sink>(
    alloc: Global,
    file: &str,
    source: &[u8],
    matter: Matter,
    known: Result<Known, AllocError>,
    err: &mut S,
)
    requires { IfOk known (IsKnownFor source.now matter.rule matter.line) }
    ensures { Adds true (IsExplained file.now source.now matter) (S.told err.old) (S.told err.new) }
{
    match known {
        Ok(known) => put_by(file, source, matter, &known, err),
        Err(_) => {
            put_by(file, source, matter, &Known::nothing(alloc), err);
            put_line(b"NOT TOLD", err);
        }
    }
}

// Writes what there is to explain, by what is known of it.
fn put_by<S: Sink>(file: &str, source: &[u8], matter: Matter, known: &Known, err: &mut S)
    ensures { Adds true (IsExplainedBy file.now source.now matter known.now) (S.told err.old)
        (S.told err.new) }
{
    put_about(file, source, matter, about_of(source, matter, known), err);
}

/// Writes the pairs that a source breaks besides the least one, if that is wanted, and explains
/// each, if the least one was explained, whose rule this is: the sentence of each rule once.
pub fn tell_further<S: Sink>(
    is_wanted: bool,
    first: Option<Rule>,
    alloc: Global,
    file: &str,
    source: &[u8],
    err: &mut S,
)
    ensures { Adds is_wanted (AreAlso first file.now source.now) (S.told err.old) (S.told err.new) }
{
    if is_wanted {
        put_further(first, alloc, file, source, err);
    }
}

// Writes each pair that a source breaks besides the least one.
fn put_further<S: Sink>(first: Option<Rule>, alloc: Global, file: &str, source: &[u8], err: &mut S)
    ensures { Adds true (AreAlso first file.now source.now) (S.told err.old) (S.told err.new) }
{
    match further_pairs(alloc, source) {
        Ok(pairs) => {
            let unit = unit_in(alloc, source);
            put_pairs(first, alloc, file, source, &unit, &pairs, err);
            drop(unit);
        }
        Err(_) => put_untold(err),
    }
}

// Writes each of some pairs.
fn put_pairs<S: Sink>(
    first: Option<Rule>,
    alloc: Global,
    file: &str,
    source: &[u8],
    unit: &Result<Tree, Refusal>,
    pairs: &[Broken],
    err: &mut S,
)
    requires { IsUnitRead source.now unit.now }
    ensures { Adds true (ArePairs first file.now source.now [] pairs.now) (S.told err.old)
        (S.told err.new) }
{
    for (at, pair) in pairs.iter().enumerate() {
        let matter = matter_of_pair(first, &pairs[..at], *pair);
        put_pair(alloc, file, source, unit, *pair, matter, err);
    }
}

// What there is to explain of a pair behind others, if rules are explained.
fn matter_of_pair(first: Option<Rule>, before: &[Broken], pair: Broken) -> Option<Matter>
    ensures { IsPairMatter first before.now pair result }
{
    match first {
        None => None,
        Some(first) => {
            let is_told = is_explained(first, before, pair.rule);
            Some(matter_of_rule(pair.rule, pair.line, is_told))
        }
    }
}

// Whether a rule was explained, at the least pair or at one of those behind it.
fn is_explained(first: Rule, before: &[Broken], rule: Rule) -> bool
    ensures { result ≡ is_explained first before.now rule }
{
    is_named(rule.name(), first, before)
}

// Whether the first rule has a name, or that of one of these pairs.
fn is_named(name: &str, first: Rule, before: &[Broken]) -> bool
    ensures { result ≡ is_named name.now first before.now }
{
    has_name(name, first) || has_rule_named(name, before)
}

// Whether the rule of one of these pairs has a name.
fn has_rule_named(name: &str, before: &[Broken]) -> bool
    ensures { result ≡ list_any (λ b. has_name name.now b.rule) before.now }
{
    for pair in before {
        if has_name(name, pair.rule) {
            return true;
        }
    }
    false
}

// Whether a rule has a name.
fn has_name(name: &str, rule: Rule) -> bool
    ensures { result ≡ has_name name.now rule }
{
    rule.name() == name
}

// Writes a line for a pair, and what there is to explain of it.
fn put_pair<S: Sink>(
    alloc: Global,
    file: &str,
    source: &[u8],
    unit: &Result<Tree, Refusal>,
    pair: Broken,
    matter: Option<Matter>,
    err: &mut S,
)
    requires { IsUnitRead source.now unit.now }
    ensures { Adds true (IsPair file.now source.now pair matter) (S.told err.old)
        (S.told err.new) }
{
    put_at("  ALSO ", pair.rule.name(), pair.line, err);
    put_explained(alloc, file, source, unit, matter, err);
    let cause = Some(Cause::Rule(pair.rule, pair.line));
    tell_hint(matter.is_some(), alloc, source, cause, err);
}

// Writes what there is to explain of a rule.
fn put_explained<S: Sink>(
    alloc: Global,
    file: &str,
    source: &[u8],
    unit: &Result<Tree, Refusal>,
    matter: Option<Matter>,
    err: &mut S,
)
    requires { IsUnitRead source.now unit.now }
    ensures { Adds true (Explains file.now source.now matter) (S.told err.old) (S.told err.new) }
{
    match matter {
        Some(matter) => {
            let known = known_by(alloc, source, unit, matter);
            put_known(alloc, file, source, matter, known, err);
        }
        None => {}
    }
}

// Writes that a growth was refused for what was to be told.
fn put_untold<S: Sink>(err: &mut S)
    ensures { IsTold not_told (S.told err.old) (S.told err.new) }
{
    put("  NOT TOLD\n", err);
}
