#![tactic(auto)]
// One namespace in its two parts, passed side by side as directory and values are: a record for each pair in one, the values in the other. Where
// they lie in memory is not known here. A count stands beside the records, since free slots lie behind those that are taken. Bounds on counts and
// lengths are facts of records (`KeysFit`, `Holds`): as types they would be opened again at every sum.
pub mod finds;
pub mod namespaces;
pub mod reads;
pub mod records;
