//! What the words `NAME=TOKENTYPE` say of rules.
use crate::files::Definition;
use crate::highlight::classes::Class;
use crate::highlight::types::class_of_type;
use crate::mapped::parted;
use crate::output::say;
use clap::ArgMatches;
use std::alloc::{AllocError, Global};

/// What the pieces of each rule are shown as, where the words say so.
#[derive(Drop)]
pub struct Map {
    classes: Vec<Option<Class>>,
}

impl Map {
    /// What the pieces of the rule at this place are shown as, if the words say so.
    pub fn class_of(&self, rule: usize) -> Option<Class> {
        match self.classes.get(rule) {
            Some(class) => *class,
            None => None,
        }
    }
}

/// Whether a rule has this name.
fn has_rule(definition: &Definition, name: &str) -> bool {
    definition
        .rules()
        .iter()
        .any(|rule| rule.name() == Some(name))
}

/// Why a word is refused, if it is.
fn fault_of(definition: &Definition, word: &str) -> Option<&'static str> {
    match parted(word) {
        Ok((name, _)) if has_rule(definition, name) => None,
        Ok(_) => Some("no rule has this name"),
        Err(fault) => Some(fault),
    }
}

/// What the words say of a name: the first that names it decides.
fn class_by(words: &[&str], name: &str) -> Option<Class> {
    for word in words {
        if let Some((named, kind)) = word.rsplit_once('=') {
            if named == name {
                return Some(class_of_type(kind));
            }
        }
    }
    None
}

/// What the words say of the rules.
fn classes_of(
    alloc: Global,
    definition: &Definition,
    words: &[&str],
) -> Result<Vec<Option<Class>>, AllocError> {
    let mut classes = Vec::new(alloc);
    for rule in definition.rules() {
        let class = match rule.name() {
            Some(name) => class_by(words, name),
            None => None,
        };
        classes.push(class)?;
    }
    Ok(classes)
}

/// What the words say of the rules. None where a word is refused, which is reported.
pub fn map_of(
    rt: &HostRuntime,
    words: &ArgMatches<'_>,
    definition: &Definition,
) -> Result<Option<Map>, AllocError> {
    let words = words.get_strs("map").unwrap_or(&[]);
    for word in words {
        if let Some(fault) = fault_of(definition, word) {
            say(rt, format_args!("rolgumzai: --map {word}: {fault}\n"));
            return Ok(None);
        }
    }
    let classes = classes_of(rt.alloc(), definition, words)?;
    Ok(Some(Map { classes }))
}
