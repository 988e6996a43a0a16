//! Scanners: texts whose tiles are pulled.
pub mod making;
pub mod stepping;
