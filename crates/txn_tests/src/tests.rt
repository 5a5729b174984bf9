//! Tests, by theme, as tables. What they expect was worked out by hand from the rules.
mod files;
mod ledgers;
mod locks;
mod logs;
mod memory;
mod models;
mod openings;
mod topics;
