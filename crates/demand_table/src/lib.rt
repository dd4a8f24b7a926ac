// Document 01's acceptance table, the rows that are 'Proved together in one table', as theorems over the definitions: specs/Table.antt. Beside it the
// cipher's known answer at the first instance, by which frames are sealed: specs/First.antt. There is no code. That answer stands apart from the
// crate ingage_spec, whose every edit would work it out again.
#![tactic(auto)]
