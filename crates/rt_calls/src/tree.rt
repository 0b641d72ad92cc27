// Trees, leaves and paths.
use crate::fault::{Fault, Told};
use crate::line::Line;
use rt_tree::{Key, Leaf, Path, Tree, TreeError};

// A refusal is said by its name; where memory lacked, the line is repeated.
fn refused(error: TreeError, line: &mut Line) -> Told {
    match error {
        TreeError::NoMemory => Err(Fault::NoMemory),
        _ => line.refused(error.name()),
    }
}

// The path of a path and a key below it.
fn child(line: &mut Line) -> Told {
    let path: Path = line.read();
    match path.child(&line.key()?) {
        Ok(child) => Ok(line.display(&child)),
        Err(error) => refused(error, line),
    }
}

// The path of a key so many times.
fn keys(line: &mut Line) -> Told {
    let key = line.key()?;
    let mut keys = Vec::new(line.alloc);
    for _ in 0..line.number::<u64>() {
        keys.push(key.copy()?)?;
    }
    match Path::from_keys(line.alloc, keys.as_slice()) {
        Ok(path) => Ok(line.display(&path)),
        Err(error) => refused(error, line),
    }
}

fn leaf(line: &mut Line) -> Told {
    match read_leaf(line) {
        Ok(leaf) => Ok(tell_leaf(leaf, line)),
        Err(error) => refused(error, line),
    }
}

fn read_leaf(line: &mut Line) -> Result<Leaf, TreeError> {
    match line.next() {
        "truth" => Ok(Leaf::truth(line.number::<u8>() == 1)),
        "number" => Leaf::number(line.number()),
        _ => Leaf::text(line.pieces()),
    }
}

// What a leaf is as each kind; and its tree.
fn tell_leaf(leaf: Leaf, line: &mut Line) {
    line.debug((leaf.as_bool(), leaf.as_i64(), leaf.as_str()));
    line.say_tree(&Tree::leaf(leaf));
}

// What pieces of a text are read as: its levels, and the tree, where it is no wide one.
fn read(line: &mut Line) -> Told {
    let text = line.pieces();
    match Tree::read(line.alloc, text.as_str()) {
        Ok(tree) => Ok(tell_read(&tree, line)),
        Err(error) => refused(error, line),
    }
}

fn tell_read(tree: &Tree, line: &mut Line) {
    line.display(&tree.levels());
    line.say(" ");
    match tree.children() {
        Some(children) if children.len() > 100 => line.display(&children.len()),
        _ => line.say_tree(tree),
    }
}

// The object of children in turn: pairs of a key and a tree, to the end of the line.
fn children(line: &mut Line) -> Told {
    let mut pairs = Vec::new(line.alloc);
    for _ in 0..line.len() {
        if line.is_empty() {
            break;
        }
        pairs.push((line.key()?, line.read()))?;
    }
    match Tree::from_children(line.alloc, line.given(pairs)?) {
        Ok(tree) => Ok(line.say_tree(&tree)),
        Err(error) => refused(error, line),
    }
}

// The object of two children by their names.
fn named(line: &mut Line) -> Told {
    let (first, left) = (line.word(), line.read());
    let (second, right) = (line.word(), line.read());
    let (left, right) = line.given((left, right))?;
    let children = vec![in line.alloc; (line.at(first), left), (line.at(second), right)]?;
    match Tree::object_of(line.alloc, children) {
        Ok(tree) => Ok(line.say_tree(&tree)),
        Err(error) => refused(error, line),
    }
}

// Puts a tree at a path.
fn put(tree: &mut Tree, line: &mut Line) -> Told {
    let entry = line.entry();
    let (path, part) = line.given(entry)?;
    match tree.put(line.alloc, &path, part) {
        Ok(()) => Ok(()),
        Err(error) => refused(error, line),
    }
}

// Puts a truth value over another in a tree that shares nothing, which takes no memory.
fn put_in_place(tree: &mut Tree, line: &mut Line) -> Told {
    let path: Path = line.read();
    line.sound()?;
    let leaf = Tree::leaf(Leaf::truth(false));
    if tree.put(line.alloc, &path, leaf).is_err() {
        line.say("refused");
    }
    Ok(())
}

// The tree {"a": tree, "b": tree}.
fn double(tree: &mut Tree, line: &mut Line) -> Told {
    let mut pairs = Vec::new(line.alloc);
    for name in ["a", "b"] {
        let key = Key::parse(line.alloc, name)?;
        pairs.push((key, tree.copy(line.alloc)?))?;
    }
    *tree = Tree::from_children(line.alloc, pairs)?;
    Ok(())
}

// Keeps a copy of an object, which takes no memory.
fn keep(copy: &mut Tree, tree: &Tree, line: &mut Line) {
    match tree.copy(line.alloc) {
        Ok(same) => *copy = same,
        Err(_) => line.say("refused"),
    }
}

// What stands at a path: its levels, and its text.
fn get(tree: &Tree, line: &mut Line) -> Told {
    let path: Path = line.read();
    line.sound()?;
    match tree.get(&path) {
        Some(part) => tell_read(part, line),
        None => line.say("none"),
    }
    Ok(())
}

// What stands at a path of names, which may be none: the value of a leaf, whether there is one, the levels
// of the part, and those of the child of that name.
fn look(tree: &Tree, line: &mut Line) {
    let word = line.word();
    let path = line.at(word);
    let values = (
        tree.truth_at(path),
        tree.number_at(path),
        tree.text_at(path),
    );
    let part = tree.part_at(path).map(|part| part.levels());
    let child = tree.child(path).map(|child| child.levels());
    let is_leaf = tree.leaf_at(path).is_some();
    line.debug(values);
    line.debug((is_leaf, part, child));
}

// Calls of a tree that puts change, and of a copy that was made of it.
pub(crate) fn call(tree: &mut Tree, copy: &mut Tree, line: &mut Line) -> Told {
    match line.next() {
        "child" => child(line),
        "keys" => keys(line),
        "leaf" => leaf(line),
        "read" => read(line),
        "children" => children(line),
        "named" => named(line),
        "put" => put(tree, line),
        "put_in_place" => put_in_place(tree, line),
        "double" => double(tree, line),
        "copy" => Ok(keep(copy, tree, line)),
        "get" => get(tree, line),
        "look" => Ok(look(tree, line)),
        "copied" => get(copy, line),
        _ => Err(Fault::NoSuchCall),
    }
}
