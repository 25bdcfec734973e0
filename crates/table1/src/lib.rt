// Table 1 of source document 003 as a constant: the proving set and the demonstration read it.
#![tactic(auto)]

ghost use Rattle.std.specs.Prelude.{◌≡◌};
ghost use Rattle.table1.specs.Table.{table1};

// A row for each task: arrival, execution, deadline, width, height.
const TABLE_1: [[u32; 5]; 7] = [
    [0, 20, 30, 3, 3],
    [0, 3, 10, 7, 5],
    [1, 12, 15, 3, 5],
    [1, 3, 10, 2, 2],
    [2, 2, 10, 3, 4],
    [2, 3, 20, 5, 1],
    [3, 2, 20, 3, 2],
];

// The seven rows.
pub fn rows() -> [[u32; 5]; 7]
    ensures { result ≡ table1 }
{
    TABLE_1
}
