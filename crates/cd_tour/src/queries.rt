//! The queries of the tour.

/// Words for the program, and what its answer to them means.
pub(crate) struct Query {
    pub(crate) words: &'static [&'static str],
    pub(crate) meaning: &'static str,
}

/// Queries on the files of the folder in which the tour runs.
pub(crate) const QUERIES: [Query; 35] = [
    // An address book: validated, made into a page, and both again under a later schema.
    Query {
        words: &["member", "address.cd", "family.doc", "Book"],
        meaning: "The document is an address book: its value is in the type `Book`.",
    },
    Query {
        words: &["check", "page.cd"],
        meaning: "The book is to become a page of HTML, in which a list has an item at least. Of a book with nobody this program would make an empty list.",
    },
    Query {
        words: &["check", "pages.cd"],
        meaning: "Here such a book gets a paragraph. The program is accepted: each page that it gives is valid.",
    },
    Query {
        words: &["run", "pages.cd", "family.doc"],
        meaning: "The page of this address book.",
    },
    Query {
        words: &["member", "address.cd", "friends.doc", "Book"],
        meaning: "The schema changes: a phone need not say of which kind it is. That of Brian does not, so this book is none of the first version.",
    },
    Query {
        words: &["member", "address.cd", "friends.doc", "LaterBook"],
        meaning: "It is an address book of the later version.",
    },
    Query {
        words: &["run", "pages.cd", "friends.doc"],
        meaning: "The program takes books of the first version alone: whether a document is of the input type is asked before the run.",
    },
    Query {
        words: &["check", "laterpage.cd"],
        meaning: "This is the program under the later version. At this place it has no branch for a phone such as this one.",
    },
    Query {
        words: &["sub", "--types", "address.cd", "LaterBook", "Book"],
        meaning: "A whole book with such a phone: it is valid in the later version alone, and the program would make no page of it.",
    },
    Query {
        words: &["check", "laterpages.cd"],
        meaning: "With a branch for phones without a kind the program is accepted again.",
    },
    Query {
        words: &["run", "laterpages.cd", "friends.doc"],
        meaning: "The page of the later book.",
    },
    Query {
        words: &["sub", "--types", "address.cd", "Book", "LaterBook"],
        meaning: "Each address book of the first version is one of the later version too, so those that are written stay valid.",
    },
    // `sub` as a service to tools: changes of schemas, content models, cases and dead branches.
    Query {
        words: &["sub", "--types", "book.cd", "Chapter", "LaterChapter"],
        meaning: "A change of a schema: does each chapter stay valid? Not this one, in which a note stands after a paragraph.",
    },
    Query {
        words: &[
            "sub",
            "--types",
            "book.cd",
            "[(Para | Note)*]",
            "[Para* Note*]",
        ],
        meaning: "A change of a content model: the order of children counts, and here a note stands before a paragraph.",
    },
    Query {
        words: &[
            "sub",
            "--types",
            "book.cd",
            "Chapter \\ (PlainChapter | NotedChapter)",
            "Empty",
        ],
        meaning: "Are these all cases? No chapter is left beside those without notes and those with some.",
    },
    Query {
        words: &["sub", "--types", "book.cd", "PlainChapter", "Chapter"],
        meaning: "A dead branch: where an earlier branch takes each chapter, none without notes comes to a later one.",
    },
    Query {
        words: &[
            "sub",
            "--types",
            "book.cd",
            "[Title Author+ Chapter*]",
            "[_*]",
        ],
        meaning: "A content model is a set of sequences, and `[_*]` holds all sequences.",
    },
    Query {
        words: &["sub", "--types", "book.cd", "Isbn", "String"],
        meaning: "A text is a sequence of characters, so a type for some texts is a content model too.",
    },
    Query {
        words: &[
            "sub",
            "--types",
            "book.cd",
            "Para | Note",
            "<_ ..>[(Char | Emph)*]",
        ],
        meaning: "`<_ ..>` is an element of any name with any attributes, so both kinds are among them.",
    },
    // Faults of texts.
    Query {
        words: &["member", "address.cd", "typo.doc", "Book"],
        meaning: "A fault in a document is reported with its line and column: a text stands between quotes.",
    },
    Query {
        words: &["sub", "--types", "letter.cd", "Letter", "Any"],
        meaning: "A fault in a file is reported with its line and column: there `]` should stand.",
    },
    Query {
        words: &["sub", "--types", "book.cd", "Chapter", "Appendix"],
        meaning: "The second type is a name that the file does not declare.",
    },
    // Programs that transform documents.
    Query {
        words: &["check", "contents.cd"],
        meaning: "A section need not have a name, and its entry in the table of contents would lead nowhere.",
    },
    Query {
        words: &["run", "outline.cd", "report.doc"],
        meaning: "Here an entry need not lead anywhere. This is the table of contents of a report, whose sections stand in one another.",
    },
    Query {
        words: &["check", "downgrade.cd"],
        meaning: "The program is to give books of the first version, but it may give this one, whose phone does not say of which kind it is.",
    },
    Query {
        words: &["run", "downgraded.cd", "friends.doc"],
        meaning: "Here such a phone counts as one at home, and this book becomes one of the first version.",
    },
    // A vocabulary with free attributes.
    Query {
        words: &["member", "tasks.cd", "tasks.doc", "Tasks"],
        meaning: "Tasks have attributes that the vocabulary names, and a tool may add others, whose values are texts.",
    },
    Query {
        words: &["sub", "--types", "tasks.cd", "FreeTask", "Task"],
        meaning: "Where further attributes may have any value, it need not be a text.",
    },
    Query {
        words: &["check", "counted.cd"],
        meaning: "The program adds an attribute to each task, and its value is a number.",
    },
    Query {
        words: &["run", "sized.cd", "tasks.doc"],
        meaning: "Here it is a text, and what other tools have added stays.",
    },
    // Queries.
    Query {
        words: &["run", "callers.cd", "family.doc"],
        meaning: "A select gives the numbers at home with their names, and a path all emails.",
    },
    Query {
        words: &["run", "kinds.cd", "friends.doc"],
        meaning: "The path gives the attributes of the phones that have one.",
    },
    // Exceptions.
    Query {
        words: &["run", "bill.cd", "order.doc"],
        meaning: "What this order costs.",
    },
    Query {
        words: &["run", "bill.cd", "wrong.doc"],
        meaning: "This one has a price below zero, for which the program raises an exception that nothing catches.",
    },
    // Patterns of texts.
    Query {
        words: &["run", "emphasis.cd", "plain.doc"],
        meaning: "A pattern of a text takes its first way: from one star to the next, and what is left is gone over again.",
    },
];

/// Queries on the two versions of a schema, `schema.cd` and `schema2.cd`, which stand in one file.
pub(crate) const OF_VERSIONS: [Query; 3] = [
    Query {
        words: &["sub", "--types", "schemas.cd", "Section", "Section2"],
        meaning: "Each section of the schema, whatever stands in it, is one of the later version too.",
    },
    Query {
        words: &["sub", "--types", "schemas.cd", "Section2", "Section"],
        meaning: "The later version allows more in sections, as here.",
    },
    Query {
        words: &["sub", "--types", "schemas.cd", "Article", "Article2"],
        meaning: "Not each article stays valid: the later version is stricter in what is said of a document.",
    },
];
