//! A store, and three lanes at it in turn.

ghost use Rattle.std.specs.Prelude.{[], IfOk};
ghost use Rattle.plain_desk.specs.Stores.{AddsOwn, view_of};
ghost use Rattle.plain_desk_tests.specs.Halls.{OpensEmpty};
ghost use Rattle.lane_steps.specs.Hands.{Fits};

use crate::stores::{Slots, ample, open, open_from};
use image_layout::{Geometry, Sys};
use lane_steps::{Hand, Step, take_step};
use pkg_names::Bytes;
use plain_desk::{Lane, Opening, Store};
use repo_source::RepoFile;
use script_lang::text_of;
use std::alloc::Global;
use std::marker::Model;
use std::mem;
use std::test::Fail;

/// A store with what its lanes 1 to 3 have in hand.
#[derive(Drop)]
pub struct Hall {
    alloc: Global,
    geometry: Geometry,
    store: Store,
    one: Hand,
    two: Hand,
    three: Hand,
}

impl Model for Hall {
    ghost use Rattle.plain_desk.specs.Stores.{StoreOf};
    ghost use Rattle.plain_desk_tests.specs.Halls.{Seated};

    ghost Value = { StoreOf };

    ghost view = { λ h. h.store };

    ghost invariant = { λ h. Seated h.one h.two h.three h.store };
}

impl Hall {
    /// A store that boots these slots over these blobs, with ample room. The lanes have nothing in hand.
    pub fn boot(alloc: Global, files: &[RepoFile], slots: &Slots) -> Result<Hall, Fail> {
        Hall::boot_in(alloc, ample(), files, slots)
    }

    /// The same at a store of this size.
    pub fn boot_in(
        alloc: Global,
        geometry: Geometry,
        files: &[RepoFile],
        slots: &Slots,
    ) -> Result<Hall, Fail> {
        seated(alloc, geometry, open(alloc, geometry, files, slots)?)
    }

    /// The lane's next call.
    pub fn step(&mut self, lane: u32, step: &Step) -> Result<(), Fail> {
        match lane {
            1 => self.step_one(step),
            2 => self.step_two(step),
            3 => self.step_three(step),
            _ => Err(Fail::new("no such lane")),
        }
    }

    fn step_one(&mut self, step: &Step) -> Result<(), Fail> {
        let Hall {
            alloc,
            store,
            one,
            ..
        } = self;
        go_on(*alloc, store, 1, one, step)
    }

    fn step_two(&mut self, step: &Step) -> Result<(), Fail> {
        let Hall {
            alloc,
            store,
            two,
            ..
        } = self;
        go_on(*alloc, store, 2, two, step)
    }

    fn step_three(&mut self, step: &Step) -> Result<(), Fail> {
        let Hall {
            alloc,
            store,
            three,
            ..
        } = self;
        go_on(*alloc, store, 3, three, step)
    }

    /// These calls of the lanes, one after the other.
    pub fn run(&mut self, steps: &[(u32, Step)]) -> Result<(), Fail> {
        for (lane, step) in steps {
            self.step(*lane, step)?;
        }
        Ok(())
    }

    /// The history in lines.
    pub fn into_text(self) -> Result<Bytes, Fail> {
        Ok(text_of(self.alloc, &self.store.into_history())?)
    }

    /// The images that were filled last are this system's.
    pub fn has_images_of(self, sys: &Sys) -> bool {
        self.store.into_parts().images.difference(sys).is_none()
    }

    /// The history in lines, and a store that boots from what lasts.
    pub fn reboot(self) -> Result<(Bytes, Hall), Fail> {
        let Hall {
            alloc,
            geometry,
            store,
            ..
        } = self;
        let parts = store.into_parts();
        let text = text_of(alloc, &parts.history)?;
        let opening = open_from(
            alloc,
            geometry,
            parts.standing,
            parts.contents,
            parts.images,
        )?;
        Ok((text, seated(alloc, geometry, opening)?))
    }
}

// A store that has booted. The lanes have nothing in hand.
fn seated(alloc: Global, geometry: Geometry, opening: Opening) -> Result<Hall, Fail>
    requires { OpensEmpty opening }
{
    match opening {
        Opening::Booted(store) => Ok(Hall {
            alloc,
            geometry,
            store,
            one: Hand::Free,
            two: Hand::Free,
            three: Hand::Free,
        }),
        _ => Err(Fail::new("no boot")),
    }
}

// The lane's turn, with what it has in hand.
fn go_on(
    alloc: Global,
    store: &mut Store,
    lane: u32,
    hand: &mut Hand,
    step: &Step,
) -> Result<(), Fail>
    requires { Fits hand.old (view_of [] lane store.old) }
    ensures hand { Fits hand.new (view_of [] lane store.new) }
    ensures own { AddsOwn lane store.old.history store.new.history }
{
    let held = mem::replace(hand, Hand::Lost);
    *hand = turn(alloc, store, lane, held, step)?;
    Ok(())
}

fn turn(alloc: Global, store: &mut Store, lane: u32, hand: Hand, step: &Step) -> Result<Hand, Fail>
    requires { Fits hand (view_of [] lane store.old) }
    ensures hand { IfOk result (λ hand. Fits hand (view_of [] lane store.new)) }
    ensures own { AddsOwn lane store.old.history store.new.history }
{
    let mut desk = Lane::make(store, lane);
    let taken = take_step(alloc, &mut desk, hand, step);
    desk.alone();
    taken
}
