//! A hub at its start.
ghost use Rattle.std.specs.Prelude.{◌≡◌, ◌≤◌, All, [], None, length, replicate, IfOk};
ghost use Rattle.sk_hub.specs.Starts.{IsNewHeart, IsNewToken, AreNew};
ghost use Rattle.sk_model.specs.Limits.{most_size, most_updaters};

use crate::answers::Admit;
use crate::heart::Heart;
use crate::token::Token;
use crate::updater::Updater;
use sk_compose::{Buffer, Composable, Parcel};
use sk_gate::{Made, make};
use sk_model::OutOfMemory;
use sk_theta::Shape;
use std::alloc::Global;
use std::collections::VecDeque;

/// The handles of a hub.
#[derive(Drop)]
pub struct Opened<C: Composable> {
    pub heart: Heart<C>,
    pub updaters: Vec<Updater<C>>,
    pub token: Token<C>,
}

/// A hub whose updaters are all admitted, with buffers of one size.
pub fn open<C: Composable>(
    alloc: Global,
    shape: &Shape,
    global: C,
) -> Result<Opened<C>, OutOfMemory>
    requires fresh { C.is_of global [] }
    ensures heart { IfOk result (λ opened. IsNewHeart shape.now.n (C.numbers global) (C.name global) shape.now.eager opened.heart) }
    ensures admitted { IfOk result (λ opened. opened.heart.admitted ≡ shape.now.n) }
    ensures count { IfOk result (λ opened. length opened.updaters.items ≡ shape.now.n) }
    ensures updaters { IfOk result (λ opened. AreNew C.hint_of (replicate shape.now.n shape.now.b) opened.heart opened.updaters.items) }
    ensures token { IfOk result (λ opened. IsNewToken opened.heart opened.token) }
{
    let sizes = Vec::from_elem(alloc, shape.b(), shape.n() as usize)?;
    open_sized(alloc, shape, sizes.as_slice(), global)
}

/// A hub with one updater for each size, from 1 to 4,096. The others are to be admitted.
pub fn open_sized<C: Composable>(
    alloc: Global,
    shape: &Shape,
    sizes: &[u32],
    global: C,
) -> Result<Opened<C>, OutOfMemory>
    requires count { length sizes.now ≤ shape.now.n }
    requires least { All (λ b. 1 ≤ b) sizes.now }
    requires most { All (λ b. b ≤ most_size) sizes.now }
    requires fresh { C.is_of global [] }
    ensures heart { IfOk result (λ opened. IsNewHeart shape.now.n (C.numbers global) (C.name global) shape.now.eager opened.heart) }
    ensures admitted { IfOk result (λ opened. opened.heart.admitted ≡ length sizes.now) }
    ensures count { IfOk result (λ opened. length opened.updaters.items ≡ length sizes.now) }
    ensures updaters { IfOk result (λ opened. AreNew C.hint_of sizes.now opened.heart opened.updaters.items) }
    ensures token { IfOk result (λ opened. IsNewToken opened.heart opened.token) }
{
    let (mut heart, token) = start(alloc, shape.n(), shape.eager(), global)?;
    let updaters = admit_each(alloc, &mut heart, sizes)?;
    Ok(Opened {
        heart,
        updaters,
        token,
    })
}

// Parcels with room for one item, for updaters that are not admitted.
fn placeholders<T: Drop>(alloc: Global, n: u32) -> Result<Vec<Parcel<T>>, OutOfMemory>
    ensures count { IfOk result (λ parcels. length parcels.items ≡ n) }
    ensures empty { IfOk result (λ parcels. All (λ p. (p.buffer.items ≡ []) × (p.told ≡ None)) parcels.items) }
    ensures rooms { IfOk result (λ parcels. All (λ p. p.buffer.capacity ≡ 1) parcels.items) }
{
    let mut parcels = Vec::with_capacity(alloc, n as usize)?;
    'parcel: for _ in 0..n {
        let buffer = Buffer::new(alloc, 1)?;
        parcels.push(Parcel { buffer, told: None })?;
    }
    Ok(parcels)
}

// Room for the told value of each updater.
fn no_told<T: Drop>(alloc: Global, n: u32) -> Result<Vec<Option<T>>, OutOfMemory>
    ensures { IfOk result (λ told. told.items ≡ replicate n None) }
{
    let mut told = Vec::with_capacity(alloc, n as usize)?;
    'told: for _ in 0..n {
        told.push(None)?;
    }
    Ok(told)
}

// A hub whose updaters are all to be admitted.
fn start<C: Composable>(
    alloc: Global,
    n: u32,
    eager: bool,
    global: C,
) -> Result<(Heart<C>, Token<C>), OutOfMemory>
    requires least { 1 ≤ n }
    requires most { n ≤ most_updaters }
    requires fresh { C.is_of global [] }
    ensures heart { IfOk result (λ made. IsNewHeart n (C.numbers global) (C.name global) eager made.0) }
    ensures admitted { IfOk result (λ made. made.0.admitted ≡ 0) }
    ensures token { IfOk result (λ made. IsNewToken made.0 made.1) }
{
    let told = no_told(alloc, n)?;
    let Made {
        heart,
        updaters,
        token,
    } = make(alloc, n, 0, global, placeholders(alloc, n)?)?;
    let heart = Heart {
        seat: heart,
        vacant: VecDeque::from_vec(updaters),
        told,
        updaters: n,
        admitted: 0,
        eager,
    };
    Ok((heart, Token { seat: token }))
}

// Admits an updater for each size.
fn admit_each<C: Composable>(
    alloc: Global,
    heart: &mut Heart<C>,
    sizes: &[u32],
) -> Result<Vec<Updater<C>>, OutOfMemory>
    requires none { heart.old.admitted ≡ 0 }
    requires count { length sizes.now ≤ heart.old.updaters }
    requires least { All (λ b. 1 ≤ b) sizes.now }
    requires most { All (λ b. b ≤ most_size) sizes.now }
    ensures count { IfOk result (λ updaters. length updaters.items ≡ length sizes.now) }
    ensures updaters { IfOk result (λ updaters. AreNew C.hint_of sizes.now heart.old updaters.items) }
    ensures heart { IfOk result (λ _. heart.new ≡ record heart.old { admitted = length sizes.now }) }
{
    let mut updaters = Vec::with_capacity(alloc, sizes.len())?;
    'size: for size in sizes {
        match heart.admit(alloc, *size) {
            Admit::Admitted(updater) => updaters.push(updater)?,
            Admit::Full => unreachable!(),
            Admit::OutOfMemory => return Err(OutOfMemory),
        }
    }
    Ok(updaters)
}
