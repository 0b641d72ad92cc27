// A store, and its nodes.
use crate::fault::{Fault, Told};
use crate::line::{FromLine, Line};
use rt_store::{Change, Node, Store, StoreError};
use rt_tree::{Leaf, LeafRef, Path};

// ---- what stands in a store

fn say_key(store: &Store, node: Option<Node>, line: &mut Line) {
    let key = node.and_then(|node| store.key(node));
    line.say(key.map_or("-", |key| key.text()));
}

fn say_leaf(leaf: &Leaf, line: &mut Line) {
    match leaf.value() {
        LeafRef::Truth(truth) => line.display(&truth),
        LeafRef::Number(number) => line.display(&number),
        LeafRef::Text(text) => line.say(text),
    }
}

// What is known of a node: its leaf, its key, and the keys of its first child and of the sibling
// behind it.
fn say_known(store: &Store, node: Node, line: &mut Line) {
    match store.leaf(node) {
        Some(leaf) => say_leaf(leaf, line),
        None => line.say("-"),
    }
    line.say(" ");
    say_key(store, Some(node), line);
    line.say(" ");
    say_key(store, store.first_child(node), line);
    line.say(" ");
    say_key(store, store.next_sibling(node), line);
    line.say("; ");
}

// Adds the children of a node in the order of a walk. At most a thousand.
fn add_children(nodes: &mut Vec<Node>, store: &Store, node: Node, line: &mut Line) {
    let mut next = store.first_child(node);
    for _ in 0..1000 {
        let Some(node) = next else {
            break;
        };
        if nodes.push(node).is_err() {
            line.fail(Fault::NoMemory);
        }
        next = store.next_sibling(node);
    }
}

// Says all nodes that a walk comes to, those of a level before those below it. At most a thousand.
fn walk(store: &Store, line: &mut Line) -> Told {
    let mut nodes = Vec::new(line.alloc);
    if let Some(root) = store.at(&Path::root(line.alloc)) {
        nodes.push(root)?;
    }
    for place in 0..1000usize {
        let Some(node) = nodes.get(place).copied() else {
            break;
        };
        add_children(&mut nodes, store, node, line);
    }
    line.sound()?;
    for node in nodes {
        say_known(store, node, line);
    }
    Ok(())
}

// Says the node at a path, which is kept.
fn at(store: &Store, node: &mut Option<Node>, line: &mut Line) -> Told {
    let path: Path = line.read();
    line.sound()?;
    *node = store.at(&path);
    kept(store, *node, line);
    Ok(())
}

// Says what the node that is kept stands for now.
fn kept(store: &Store, node: Option<Node>, line: &mut Line) {
    match node {
        Some(node) => say_known(store, node, line),
        None => line.say("no node"),
    }
}

// Says the part at a path, the keys of its children in the order of a walk, and whether something
// stands there.
fn part(store: &Store, line: &mut Line) -> Told {
    let path: Path = line.read();
    let mut nodes = Vec::new(line.alloc);
    if let Some(node) = store.at(&path) {
        add_children(&mut nodes, store, node, line);
    }
    line.sound()?;
    line.say_tree(&store.get(line.alloc, &path)?);
    for node in nodes {
        line.say(" ");
        say_key(store, Some(node), line);
    }
    line.debug((store.has(&path), store.is_null()));
    Ok(())
}

// ---- changes

fn set(store: &mut Store, line: &mut Line) -> Told {
    let (path, tree) = line.entry();
    line.sound()?;
    match store.set(line.alloc, &path, &tree) {
        Ok(()) => line.say("Ok"),
        Err(StoreError::NoMemory) => return Err(Fault::NoMemory),
        Err(error) => line.say(error.name()),
    }
    Ok(())
}

fn clear(store: &mut Store, line: &mut Line) -> Told {
    let path: Path = line.read();
    store.clear(&line.given(path)?);
    Ok(())
}

// A path and what is set there, or `-` where it is cleared.
impl FromLine for Change {
    fn from_line(line: &mut Line) -> Change {
        let path = line.read();
        let word = line.word();
        match line.at(word) {
            "-" => Change::Clear(path),
            _ => Change::Set(path, line.tree_of(word)),
        }
    }
}

// A run that lacks memory has made some of its changes, but not all.
fn run(store: &mut Store, line: &mut Line) -> Told {
    let changes: Vec<Change> = line.all();
    line.sound()?;
    store.run(line.alloc, &changes).map_err(|_| Fault::Lost)?;
    line.say("Ok");
    Ok(())
}

// Calls of a store, and of a node of it that was found before its last changes.
pub(crate) fn call(store: &mut Store, node: &mut Option<Node>, line: &mut Line) -> Told {
    match line.next() {
        "new" => *store = Store::new(line.alloc),
        "set" => return set(store, line),
        "clear" => return clear(store, line),
        "run" => return run(store, line),
        "part" => return part(store, line),
        "walk" => return walk(store, line),
        "at" => return at(store, node, line),
        "kept" => kept(store, *node, line),
        _ => return Err(Fault::NoSuchCall),
    }
    Ok(())
}
