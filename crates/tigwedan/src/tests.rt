// Tests of all libraries, in one crate at the top, so that none of them is proved once more for its own: limits of settings,
// what files of text come to, what is left of a source, and runs of the program over a host that fails.
mod calls;
mod limits;
mod runs;
mod settings_files;
mod wholes;
