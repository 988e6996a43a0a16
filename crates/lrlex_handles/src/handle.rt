//! What C holds: null, or a pointer to an object.
ghost use Rattle.std.specs.Prelude.{◌≡◌};
ghost use Rattle.std.specs.Option.{MatchOption};
ghost use Rattle.std.specs.declared.option.Option.{Option};
ghost use Rattle.std.specs.declared.option.Option.TheVariants.{None, Some};
ghost use Rattle.lrlex_handles.specs.declared.object.Object.{Object};

use crate::loose::Loose;
use crate::object::Object;
use std::alloc::Global;
use std::marker::Model;
use std::mem::replace;
use std::ptr::null_mut;

/// One pointer: null, or to an object that it owns.
#[repr(C)]
#[derive(Drop)]
pub struct Handle {
    at: *mut u8,
    alloc: Global,
    pub ghost value: { Option Object },
}

impl Model for Handle {
    ghost use Rattle.lrlex_handles.specs.Holding.{holds};

    ghost also_owns = { λ h. holds h.alloc h.at h.value };
}

impl Handle {
    fn empty(alloc: Global) -> Handle
        ensures { result.value ≡ None }
    {
        Handle {
            at: null_mut(),
            alloc,
        }
    }

    fn full(object: Loose<Object, Global>) -> Handle
        ensures { result.value ≡ Some object.value }
    {
        let Loose { at, alloc } = object;
        Handle {
            at: at as *mut u8,
            alloc,
        }
    }

    fn content(self) -> Option<Loose<Object, Global>>
        ensures { MatchOption result (self.value ≡ None) (λ l. self.value ≡ Some l.value) }
    {
        let Handle { at, alloc } = self;
        if at.is_null() {
            None
        } else {
            Some(Loose {
                at: at as *mut Object,
                alloc,
            })
        }
    }

    /// Takes the object out of the handle.
    pub(crate) fn take(&mut self, alloc: Global) -> Option<Box<Object>>
        ensures value { MatchOption result (self.old.value ≡ None) (λ b. self.old.value ≡ Some b.value) }
        ensures empty { self.new.value ≡ None }
    {
        match replace(self, Handle::empty(alloc)).content() {
            None => None,
            Some(loose) => Some(loose.into_box()),
        }
    }

    /// Puts an object into the handle.
    pub(crate) fn put(&mut self, object: Box<Object>)
        ensures { self.new.value ≡ Some object.value }
    {
        *self = Handle::full(Loose::of(object));
    }
}

/// What a call returns that works on the object in a handle and leaves it there. Where the handle is empty it is `$empty`.
macro_rules! with_object {
    ($alloc:expr, $handle:expr, $empty:expr, |$object:ident| $answer:expr) => {
        match $handle.take($alloc) {
            None => $empty,
            Some($object) => {
                let answer = $answer;
                $handle.put($object);
                answer
            }
        }
    };
    ($alloc:expr, $handle:expr, $empty:expr, |mut $object:ident| $answer:expr) => {
        match $handle.take($alloc) {
            None => $empty,
            Some(mut $object) => {
                let answer = $answer;
                $handle.put($object);
                answer
            }
        }
    };
}

pub(crate) use with_object;

/// Lets go of what the handle holds. It is empty then.
pub fn free(alloc: Global, handle: &mut Handle)
    ensures { handle.new.value ≡ None }
{
    let _held = handle.take(alloc);
}
