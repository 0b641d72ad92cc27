// A value may be handed to another thread: its types say so.
use rt_client::crossing_law;
use rt_tree::Tree;

fn crosses<T: Send + Sync + Drop>(value: T) {
    drop(value);
}

#[test]
fn trees_cross_threads(_rt: HostRuntime) {
    // For the prover: what may go to another thread.
    crossing_law();
    crosses(Tree::null());
}
