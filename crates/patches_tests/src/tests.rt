mod accepted;
mod cells;
mod files;
mod lookups;
mod marks;
mod narrows;
mod ranges;
mod refusals;
