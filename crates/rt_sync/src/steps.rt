// The steps: what each leaves, one file a kind of step.
mod connection;
mod listens;
mod losses;
mod pushes;
mod requests;
