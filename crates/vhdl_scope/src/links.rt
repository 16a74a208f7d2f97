//! Links along which one set hands its numbers on to another.

ghost use Rattle.std.specs.Prelude.{◌≡◌, ◌++◌, ◌∷◌, [], if◌then◌else◌, IfOk, OnOk};
ghost use Rattle.vhdl_scope.specs.LinkLists.{links_of};

use base::NoMemory;
use std::alloc::Global;
use std::marker::Model;
use std::mem;

/// The set of `source` hands its numbers on to the set that the link belongs to, where that set has the number `library_number`.
#[derive(Clone, Copy)]
pub struct Link {
    pub library_number: usize,
    pub source: usize,
}

/// The links of a list. One alone takes no memory of its own.
#[derive(Drop)]
pub enum Linked {
    One([Link; 1]),
    Many(Vec<Link>),
}

/// Links, in order. Contracts see them.
#[derive(Drop)]
pub struct LinkList {
    links: Linked,
}

impl Model for LinkList {
    ghost use Rattle.std.specs.Prelude.{List};
    ghost use Rattle.vhdl_scope.specs.declared.links.Link.{Link};
    ghost use Rattle.vhdl_scope.specs.LinkLists.{links_of};

    ghost Value = { List Link };

    ghost view = { λ a. links_of a.links };
}

/// Two links.
#[tactic(auto, unfolding(crate::specs::LinkLists::links_of))]
fn two(alloc: Global, first: [Link; 1], link: Link) -> Result<Linked, NoMemory>
    ensures { IfOk result (λ all. links_of all ≡ first ++ link ∷ []) }
{
    let mut links = Vec::new(alloc);
    links.extend_from_slice(first.as_slice())?;
    links.push(link)?;
    Ok(Linked::Many(links))
}

/// Some links and one more.
#[tactic(auto, unfolding(crate::specs::LinkLists::links_of))]
fn one_more(links: Vec<Link>, link: Link) -> Result<Linked, NoMemory>
    ensures { IfOk result (λ all. links_of all ≡ links.items ++ link ∷ []) }
{
    let mut links = links;
    if links.is_empty() {
        return Ok(Linked::One([link; 1]));
    }
    links.push(link)?;
    Ok(Linked::Many(links))
}

/// Adds a link to a long list at the end, and says whether it is one: it isn't empty.
fn push_long(links: &mut Vec<Link>, link: Link) -> Result<bool, NoMemory>
    ensures { IfOk result (λ done. links.new.items
        ≡ (if done then links.old.items ++ link ∷ [] else links.old.items)) }
{
    if links.is_empty() {
        return Ok(false);
    }
    links.push(link)?;
    Ok(true)
}

impl Linked {
    /// The links.
    #[tactic(auto, unfolding(crate::specs::LinkLists::links_of))]
    fn as_slice(&self) -> &[Link]
        ensures { result.now ≡ links_of self.now }
    {
        match self {
            Linked::One(link) => link.as_slice(),
            Linked::Many(links) => links.as_slice(),
        }
    }

    /// Adds a link at the end in place, where there is a list with room of its own, and says whether it has done so.
    #[tactic(auto, unfolding(crate::specs::LinkLists::links_of))]
    fn push(&mut self, link: Link) -> Result<bool, NoMemory>
        ensures { IfOk result (λ done. links_of self.new
            ≡ (if done then links_of self.old ++ link ∷ [] else links_of self.old)) }
    {
        match self {
            Linked::One(_first) => Ok(false),
            Linked::Many(links) => push_long(links, link),
        }
    }

    /// The links and one more.
    #[tactic(auto, unfolding(crate::specs::LinkLists::links_of))]
    fn with(self, alloc: Global, link: Link) -> Result<Linked, NoMemory>
        ensures { IfOk result (λ all. links_of all ≡ links_of self ++ link ∷ []) }
    {
        match self {
            Linked::One(first) => two(alloc, first, link),
            Linked::Many(links) => one_more(links, link),
        }
    }
}

impl LinkList {
    /// No link.
    #[tactic(auto, unfolding(crate::specs::LinkLists::links_of))]
    pub fn new(alloc: Global) -> LinkList
        ensures { result ≡ [] }
    {
        LinkList {
            links: Linked::Many(Vec::new(alloc)),
        }
    }

    /// The links.
    pub fn as_slice(&self) -> &[Link]
        ensures { result.now ≡ self.now }
    {
        self.links.as_slice()
    }

    /// Adds a link at the end.
    pub fn push(&mut self, alloc: Global, link: Link) -> Result<(), NoMemory>
        ensures { OnOk result (self.new ≡ self.old ++ link ∷ []) }
    {
        if self.links.push(link)? {
            return Ok(());
        }
        let links = mem::replace(&mut self.links, Linked::Many(Vec::new(alloc)));
        self.links = links.with(alloc, link)?;
        Ok(())
    }
}
