//! The reactors of a file as tables.

use lft_resolve::by_number::{Declarations, Reactions};
use lft_resolve::expansion::{Connections, Contents, Parameters};

/// The reactors of a file as tables, by number, and the number of the main reactor. Reactors are
/// numbered from 0 in the order of the file.
#[derive(Drop)]
pub struct Tables {
    pub main: u32,
    pub contents: Vec<Contents>,
    pub parameters: Vec<Parameters>,
    pub connections: Vec<Connections>,
    pub declarations: Vec<Declarations>,
    pub reactions: Vec<Reactions>,
}
