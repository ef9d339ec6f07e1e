//! The strongly connected components of a graph. They are a hint: the speed of the search rests on them, and no answer.

use std::alloc::{AllocError, Allocator};

/// What the pass knows of a node. Times and components count from 1 on, and 0 stands for none yet.
#[derive(Clone, Copy, Default)]
struct Mark {
    entered: usize,
    // The least time of entry that the node was seen to lead to within its component.
    low: usize,
    // How many of its edges were looked at.
    looked: usize,
    component: usize,
}

/// Tarjan's pass in depth.
#[derive(Drop)]
struct Pass<A: Allocator> {
    marks: Vec<Mark, A>,
    path: Vec<usize, A>,
    // The nodes that were entered and whose component isn't known yet.
    waiting: Vec<usize, A>,
    clock: usize,
    components: usize,
}

/// For each node the number of its component. Edges lead to components of the same number or of a smaller one.
pub fn components<A: Allocator + Copy>(
    alloc: A,
    graph: &[Vec<usize, A>],
) -> Result<Vec<usize, A>, AllocError> {
    let mut pass = Pass {
        marks: vec![in alloc; Mark::default(); graph.len()]?,
        path: Vec::new(alloc),
        waiting: Vec::new(alloc),
        clock: 0,
        components: 0,
    };
    for root in 0..graph.len() {
        pass.visit(graph, root)?;
    }
    pass.marks.iter().map(|mark| mark.component).collect(alloc)
}

impl<A: Allocator + Copy> Pass<A> {
    fn visit(&mut self, graph: &[Vec<usize, A>], root: usize) -> Result<(), AllocError> {
        if self.mark(root).entered == 0 {
            self.enter(root)?;
        }
        for _ in 0..u64::MAX {
            let Some(&node) = self.path.last() else {
                break;
            };
            let looked = self.mark(node).looked;
            match graph.get(node).and_then(|to| to.get(looked)) {
                Some(next) => self.look(node, *next)?,
                None => self.leave(node),
            }
        }
        Ok(())
    }

    fn mark(&self, node: usize) -> Mark {
        self.marks.get(node).copied().unwrap_or_default()
    }

    fn enter(&mut self, node: usize) -> Result<(), AllocError> {
        self.clock = self.clock.saturating_add(1);
        let clock = self.clock;
        if let Some(mark) = self.marks.get_mut(node) {
            mark.entered = clock;
            mark.low = clock;
        }
        self.path.push(node)?;
        self.waiting.push(node)?;
        Ok(())
    }

    // An edge to a node that wasn't entered is looked at once more behind it.
    fn look(&mut self, node: usize, next: usize) -> Result<(), AllocError> {
        let to = self.mark(next);
        if to.entered == 0 {
            return self.enter(next);
        }
        if let Some(mark) = self.marks.get_mut(node) {
            mark.looked = mark.looked.saturating_add(1);
            if to.component == 0 {
                mark.low = mark.low.min(to.low);
            }
        }
        Ok(())
    }

    fn leave(&mut self, node: usize) {
        self.path.pop();
        let mark = self.mark(node);
        if mark.low == mark.entered {
            self.close(node);
        }
    }

    // The nodes that were entered from this one on are a component.
    fn close(&mut self, first: usize) {
        self.components = self.components.saturating_add(1);
        let component = self.components;
        for _ in 0..self.waiting.len() {
            let Some(node) = self.waiting.pop() else {
                break;
            };
            if let Some(mark) = self.marks.get_mut(node) {
                mark.component = component;
            }
            if node == first {
                break;
            }
        }
    }
}
