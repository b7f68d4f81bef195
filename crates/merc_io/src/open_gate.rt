//! A gate that every conjunct may enter at once.
use merc_base::Gate;

/// A gate that does nothing.
#[derive(Clone, Copy)]
pub struct OpenGate;

impl Gate for OpenGate {
    fn enter(&self, _child: u32) {}
}
