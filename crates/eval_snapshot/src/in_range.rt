// Numbers of a module in the ranges of their types: a walk over them carries out what the types say.

ghost use Rattle.base_lists.specs.Every.{Every};
ghost use Rattle.eval_snapshot_proof.specs.Ranges.{BeginsInRange, HasFewSlots, HoldsBytes, IsByte};

use wasm_tree::{DataSeg, Module, TableType};

fn bytes_in_range(bytes: &[u8])
    ensures { Every IsByte bytes.now }
{
    for byte in bytes {
        let _byte = *byte;
    }
}

fn datas_in_range(datas: &[DataSeg])
    ensures { Every HoldsBytes datas.now }
{
    for data in datas {
        bytes_in_range(data.bytes.as_slice());
    }
}

fn table_in_range(table: &TableType)
    ensures { HasFewSlots table.now }
{
    let _min = table.limits.min;
}

fn tables_in_range(tables: &[TableType])
    ensures { Every HasFewSlots tables.now }
{
    for table in tables {
        table_in_range(table);
    }
}

/// States that the tables that a module defines have fewer than 2^32 slots at first and that its
/// data segments hold bytes.
pub(crate) fn begins_in_range(input: &Module)
    ensures { BeginsInRange input.now }
{
    tables_in_range(input.tables.as_slice());
    datas_in_range(input.datas.as_slice());
}
