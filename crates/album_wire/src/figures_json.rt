//! The line of a service's figures.
ghost use Rattle.std.specs.Prelude.{◌≡◌, ◌++◌, ◌∷◌, [], codes, map, IfOk, IsOkUnless};
ghost use Rattle.serde_json.specs.View.{view};
ghost use Rattle.album_lines.specs.Spelling.{whole_data, list_data};
ghost use Rattle.album_lines.specs.Output.{line_text};
ghost use Rattle.album_wire.specs.FiguresJson.{connections_json, marks_json, figures_of, figures_json, figures_text};

use crate::talk_json::{Counted, totals_fields};
use album_lines::{array_of, json_line, object_of, with_item, with_member};
use album_partition::Figures;
use album_stamps::Refusal;
use serde_json::Value;
use std::alloc::{AllocError, Global};

/// How much a service has at some time.
#[derive(Debug, Drop)]
pub struct ServiceFigures {
    /// How many connections have a session.
    pub connected: u64,
    /// How many have had one, these among them.
    pub begun: u64,
    /// How many may have one.
    pub most: u64,
    /// Of each partition, in the order of their numbers.
    pub parts: Vec<Figures>,
    pub audits: Counted,
    pub alarms: Counted,
}

/// The line of it.
///
/// # Errors
///
/// `OutOfMemory`.
#[tactic(auto, using(crate::proofs::Floats::no_float_in_figures), unfolding(crate::specs::FiguresJson::figures_text))]
pub fn write_figures(alloc: Global, figures: &ServiceFigures) -> Result<Vec<u8>, Refusal>
    ensures text { IfOk result (λ bytes. bytes.items ≡ figures_text figures.now) }
    ensures memory { IsOkUnless result Refusal.OutOfMemory }
{
    let value = figures_json(alloc, figures);
    Ok(json_line(alloc, value)?)
}

/// A law: a line that was worked out by hand. Two partitions have room for 100 marks each; one has 6 marks, with no
/// stamp pending, and the other has 5, with one.
pub fn worked_figures()
    ensures two { line_text (figures_of 1 3 65535
        (record { marks = 6; limit = 100; pending = 0; versions = 3 }
        ∷ record { marks = 5; limit = 100; pending = 1; versions = 4 }
        ∷ [])
        (record { succeeded = 7; failed = 0 }) (record { succeeded = 0; failed = 2 }))
        ≡ codes "{\"alarms\":[0,2],\"audits\":[7,0],\"connections\":[1,3,65535],"
        ++ codes "\"marks\":[[6,100],[5,100]],\"pending\":[0,1],\"versions\":[3,4]}\n" }
{}

fn figures_json(alloc: Global, figures: &ServiceFigures) -> Result<Value, AllocError>
    ensures { IfOk result (λ v. view v ≡ figures_json figures.now) }
{
    let fields = totals_fields(alloc, figures.audits, figures.alarms);
    let fields = with_member(
        alloc,
        fields,
        "connections",
        connections_json(alloc, figures),
    );
    let fields = with_member(
        alloc,
        fields,
        "marks",
        all_marks_json(alloc, &figures.parts),
    );
    let fields = with_member(
        alloc,
        fields,
        "pending",
        pending_json(alloc, &figures.parts),
    );
    let versions = versions_json(alloc, &figures.parts);
    object_of(with_member(alloc, fields, "versions", versions))
}

/// [those that are there, those that were, those that may be]
fn connections_json(alloc: Global, figures: &ServiceFigures) -> Result<Value, AllocError>
    ensures { IfOk result
        (λ v. view v ≡ connections_json figures.now.connected figures.now.begun figures.now.most) }
{
    let parts = with_item(Ok(Vec::new(alloc)), Ok(Value::from(figures.connected)));
    let parts = with_item(parts, Ok(Value::from(figures.begun)));
    array_of(with_item(parts, Ok(Value::from(figures.most))))
}

fn all_marks_json(alloc: Global, parts: &[Figures]) -> Result<Value, AllocError>
    ensures { IfOk result (λ v. view v ≡ list_data (map marks_json parts.now)) }
{
    let mut values = Vec::with_capacity(alloc, parts.len());
    for part in parts {
        values = with_item(values, marks_json(alloc, part));
    }
    array_of(values)
}

/// [those that are made, those for which there is room]
fn marks_json(alloc: Global, part: &Figures) -> Result<Value, AllocError>
    ensures { IfOk result (λ v. view v ≡ marks_json part.now) }
{
    let pair = with_item(Ok(Vec::new(alloc)), Ok(Value::from(part.marks)));
    array_of(with_item(pair, Ok(Value::from(part.limit))))
}

fn pending_json(alloc: Global, parts: &[Figures]) -> Result<Value, AllocError>
    ensures { IfOk result (λ v. view v ≡ list_data (map (λ part. whole_data part.pending) parts.now)) }
{
    let mut values = Vec::with_capacity(alloc, parts.len());
    for part in parts {
        values = with_item(values, Ok(Value::from(part.pending)));
    }
    array_of(values)
}

fn versions_json(alloc: Global, parts: &[Figures]) -> Result<Value, AllocError>
    ensures { IfOk result (λ v. view v ≡ list_data (map (λ part. whole_data part.versions) parts.now)) }
{
    let mut values = Vec::with_capacity(alloc, parts.len());
    for part in parts {
        values = with_item(values, Ok(Value::from(part.versions)));
    }
    array_of(values)
}
