//! Values that are kept one after another, in memory that was taken before.

ghost use Rattle.std.specs.Prelude.{◌≡◌, ◌+◌, ◌++◌, ◌∷◌, [], Some, IfOk, IfErr, length, option_copied};
ghost use Rattle.std.specs.List.{slice_get};
ghost use Rattle.stream_memory.specs.Chain.{node_values, own};

use memory::NoMemory;
use std::alloc::Global;
use std::marker::Model;

/// A value in the memory in which a chain takes it, and the values that the chain took before.
#[derive(Drop)]
pub(crate) struct Node<T> {
    pub(crate) value: T,
    earlier: Option<Box<Node<T>>>,
}

/// Values in the order in which they were taken.
#[derive(Drop)]
pub(crate) struct Chain<T> {
    last: Option<Box<Node<T>>>,
}

impl<T> Model for Chain<T> {
    ghost use Rattle.std.specs.Prelude.{List};
    ghost use Rattle.stream_memory.specs.Chain.{values_of};

    ghost Value = { List T };

    ghost view = { λ chain. values_of chain.last };
}

impl<T: Drop> Node<T> {
    /// A node with this value.
    pub(crate) fn new(alloc: Global, value: T) -> Result<Box<Node<T>>, NoMemory>
        ensures { IfOk result (λ node. own node.value ≡ value) }
    {
        let node = Node {
            value,
            earlier: None,
        };
        Ok(Box::new(alloc, node)?)
    }
}

impl<T: Drop> Chain<T> {
    /// No values.
    pub(crate) fn new() -> Chain<T>
        ensures { result ≡ [] }
    {
        Chain { last: None }
    }

    /// Takes a value with its memory.
    pub(crate) fn push(&mut self, node: Box<Node<T>>)
        ensures { self.new ≡ self.old ++ own node.value ∷ [] }
    {
        let mut node = node;
        node.earlier = self.last.take();
        self.last = Some(node);
    }

    /// The value of this number, counted from 0 in the order in which they were taken.
    pub(crate) fn get(&self, index: usize) -> Option<&T>
        ensures { option_copied result ≡ slice_get self.now index }
    {
        match &self.last {
            Some(last) => find(last, index).ok(),
            None => None,
        }
    }
}

/// The value of this number among those up to a node, or what is left of the number after them.
fn find<T>(node: &Node<T>, index: usize) -> Result<&T, usize>
    ensures found { IfOk result (λ value. slice_get (node_values node.now) index ≡ Some value.now) }
    ensures passed { IfErr result (λ left. index ≡ length (node_values node.now) + left) }
{
    let left = match &node.earlier {
        Some(earlier) => match find(earlier, index) {
            Ok(value) => return Ok(value),
            Err(left) => left,
        },
        None => index,
    };
    if left == 0 {
        Ok(&node.value)
    } else {
        Err(left - 1)
    }
}
