//! A program of a study, as the study names it.

ghost use Rattle.std.specs.Prelude.{◌≡◌, ◌≢◌, ◌≤◌, [], string_bytes, true};
ghost use Rattle.tomex_document.specs.Program.{IsProgramEntry, entry_of, is_name};
ghost use Rattle.tomex_rvexec.specs.Run.{most_steps};
ghost use Rattle.tomex_study.specs.Watch.{IsWatch};

use std::alloc::{Allocator, Global};
use std::marker::Model;
use tomex_image::Window;
use tomex_study::WatchRange;

/// A program before its file is read. Its place has passed all tests: the name has 1 to 32 of the
/// lawful characters, the file is named, the limit is 1 to 262,144 steps, the watched ranges are in
/// the window, and the weight is 1 to 1,000.
#[derive(Drop)]
pub struct Entry<A: Allocator = Global> {
    name: String<A>,
    file: String<A>,
    window: Window,
    limit: u32,
    watch: Vec<WatchRange, A>,
    weight: u32,
    weighed: bool,
}

impl<A: Allocator> Model for Entry<A> {
    ghost use Rattle.std.specs.Prelude.{string_bytes};
    ghost use Rattle.tomex_document.specs.Program.{ProgramEntry, IsProgramEntry, entry_of};

    ghost Value = { ProgramEntry };

    ghost view = { λ e.
        entry_of (string_bytes e.name) (string_bytes e.file) e.window e.limit e.watch.items e.weight e.weighed };

    ghost invariant = { λ e. IsProgramEntry
        (entry_of (string_bytes e.name) (string_bytes e.file) e.window e.limit e.watch.items e.weight e.weighed) };
}

impl<A: Allocator> Entry<A> {
    /// The program of these parts.
    pub fn new(
        name: String<A>,
        file: String<A>,
        window: Window,
        limit: u32,
        watch: Vec<WatchRange, A>,
        weight: u32,
        weighed: bool,
    ) -> Entry<A>
        requires name { is_name (string_bytes name) ≡ true }
        requires file { string_bytes file ≢ [] }
        requires some_steps { 1 ≤ limit }
        requires few_steps { limit ≤ most_steps }
        requires watch { IsWatch window watch.items }
        requires least_weight { 1 ≤ weight }
        requires most_weight { weight ≤ 1000 }
        ensures { result
            ≡ entry_of (string_bytes name) (string_bytes file) window limit watch.items weight weighed }
    {
        window.keeps_limits();
        Entry {
            name,
            file,
            window,
            limit,
            watch,
            weight,
            weighed,
        }
    }

    /// A law: a program that a study names is within the limits.
    pub fn keeps_limits(&self)
        ensures { IsProgramEntry self.now }
    {
        let _limit = self.limit;
    }

    /// The name, which no other program of the study has.
    pub fn name(&self) -> &str
        ensures value { result.now ≡ self.now.name }
    {
        self.name.as_str()
    }

    /// The window of the program's image.
    pub fn window(&self) -> Window
        ensures value { result ≡ self.now.window }
    {
        self.window
    }

    /// The number of steps within which the program must end.
    pub fn limit(&self) -> u32
        ensures value { result ≡ self.now.limit }
    {
        self.limit
    }

    /// The ranges of memory that reports show.
    pub fn watch(&self) -> &[WatchRange]
        ensures value { result.now ≡ self.now.watch }
    {
        self.watch.as_slice()
    }

    /// The factor by which the program's cycles count.
    pub fn weight(&self) -> u32
        ensures value { result ≡ self.now.weight }
    {
        self.weight
    }

    /// True if the study gives the weight.
    pub fn gives_weight(&self) -> bool
        ensures value { result ≡ self.now.weighed }
    {
        self.weighed
    }

    /// The name of the program's file.
    pub fn into_file(self) -> String<A>
        ensures { string_bytes result ≡ self.file }
    {
        self.file
    }
}
