// The functions and globals that code names.

ghost use Rattle.std.specs.Prelude.{◌≡◌, OnOk, []};
ghost use Rattle.std.specs.List.{cons_option, filter_map, flat_map};
ghost use Rattle.wasm_tree.specs.Operands.{listed, operands_of};
ghost use Rattle.dce_graph.specs.Reach.{body_points, const_point, const_points, data_points, elem_points, named_points, operand_point};
ghost use Rattle.dce_graph.specs.Marks.{Spread};

use crate::point::Point;
use crate::search::{Search, visit};
use wasm_bytes::NoMemory;
use wasm_tree::{ConstExpr, DataMode, DataSeg, ElemMode, ElemSeg, Instr, Operand, Space};

fn point_of(operand: Operand) -> Option<Point>
    ensures { result ≡ operand_point operand }
{
    match operand.space {
        Space::Functions => Some(Point::Func(operand.index)),
        Space::Globals => Some(Point::Global(operand.index)),
        Space::Types
        | Space::Tables
        | Space::Memories
        | Space::ElementSegments
        | Space::DataSegments => None,
    }
}

fn visit_operand(search: &mut Search, operand: Option<Operand>) -> Result<(), NoMemory>
    ensures { OnOk result (Spread search.old (filter_map operand_point (cons_option operand [])) search.new) }
{
    match operand {
        Some(operand) => match point_of(operand) {
            Some(point) => visit(search, point),
            None => Ok(()),
        },
        None => Ok(()),
    }
}

// Visits what the instruction itself names.
fn visit_operands(search: &mut Search, instr: &Instr) -> Result<(), NoMemory>
    ensures { OnOk result (Spread search.old (filter_map operand_point (operands_of instr.now)) search.new) }
{
    let operands = instr.operands();
    visit_operand(search, operands.first)?;
    visit_operand(search, operands.second)
}

#[cycle(code)]
fn visit_instr(search: &mut Search, instr: &Instr) -> Result<(), NoMemory>
    ensures { OnOk result (Spread search.old (named_points instr.now) search.new) }
{
    visit_operands(search, instr)?;
    match instr {
        Instr::Block(_, body) => visit_body(search, body.as_slice()),
        Instr::Loop(_, body) => visit_body(search, body.as_slice()),
        Instr::If(_, body, other) => {
            visit_body(search, body.as_slice())?;
            visit_body(search, other.as_slice())
        }
        _ => Ok(()),
    }
}

/// Visits each function and global that the body names.
#[cycle(code)]
pub(crate) fn visit_body(search: &mut Search, body: &[Instr]) -> Result<(), NoMemory>
    ensures { OnOk result (Spread search.old (body_points body.now) search.new) }
{
    for instr in body {
        visit_instr(search, instr)?;
    }
    Ok(())
}

/// Visits the function or global that a constant expression names, if there is one.
pub(crate) fn visit_const(search: &mut Search, expr: &ConstExpr) -> Result<(), NoMemory>
    ensures { OnOk result (Spread search.old (const_points expr.now) search.new) }
{
    match expr {
        ConstExpr::Func(func) => visit(search, Point::Func(*func)),
        ConstExpr::Global(global) => visit(search, Point::Global(*global)),
        ConstExpr::I32(_) | ConstExpr::I64(_) | ConstExpr::Null(_) => Ok(()),
    }
}

fn visit_items(search: &mut Search, items: &[ConstExpr]) -> Result<(), NoMemory>
    ensures { OnOk result (Spread search.old (filter_map const_point items.now) search.new) }
{
    for item in items {
        visit_const(search, item)?;
    }
    Ok(())
}

fn visit_elem(search: &mut Search, segment: &ElemSeg) -> Result<(), NoMemory>
    ensures { OnOk result (Spread search.old (elem_points segment.now.mode segment.now.items) search.new) }
{
    match &segment.mode {
        ElemMode::Active { offset, .. } => {
            visit_const(search, offset)?;
            visit_items(search, segment.items.as_slice())
        }
        ElemMode::Passive => visit_items(search, segment.items.as_slice()),
        ElemMode::Declarative => Ok(()),
    }
}

/// Visits what active and passive element segments name.
pub(crate) fn visit_elems(search: &mut Search, segments: &[ElemSeg]) -> Result<(), NoMemory>
    ensures { OnOk result (Spread search.old (flat_map (λ s. elem_points s.mode s.items) segments.now) search.new) }
{
    for segment in segments {
        visit_elem(search, segment)?;
    }
    Ok(())
}

fn visit_data(search: &mut Search, segment: &DataSeg) -> Result<(), NoMemory>
    ensures { OnOk result (Spread search.old (data_points segment.now.mode) search.new) }
{
    match &segment.mode {
        DataMode::Active { offset, .. } => visit_const(search, offset),
        DataMode::Passive => Ok(()),
    }
}

/// Visits what the offsets of data segments name.
pub(crate) fn visit_datas(search: &mut Search, segments: &[DataSeg]) -> Result<(), NoMemory>
    ensures { OnOk result (Spread search.old (flat_map (λ s. data_points s.mode) segments.now) search.new) }
{
    for segment in segments {
        visit_data(search, segment)?;
    }
    Ok(())
}
