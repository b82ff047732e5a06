// The texts of the prelude, one for each package. A class without a constructor has one without parameters, and the
// members of interfaces are public (JLS 8.8.9, 9.4). Types of other packages than `java.lang` have their full names.

/// The package `java.lang`.
pub const JAVA_LANG: &[u8] = b"
package java.lang;

public class Object {
    public boolean equals(Object other);
    public int hashCode();
    public String toString();
    public Class getClass();
}

public interface CharSequence {
    int length();
    char charAt(int index);
}

public class String implements java.io.Serializable, Comparable, CharSequence {
    public int length();
    public char charAt(int index);
    public boolean isEmpty();
    public String substring(int begin);
    public String substring(int begin, int end);
    public String concat(String other);
    public String trim();
    public static String valueOf(Object value);
    public static String valueOf(int value);
}

public interface Comparable<T> {
    int compareTo(T other);
}

public interface Iterable<T> {
    java.util.Iterator iterator();
}

public interface Runnable {
    void run();
}

public interface AutoCloseable {
    void close();
}

public class Number implements java.io.Serializable {
    public int intValue();
    public long longValue();
    public double doubleValue();
}

public class Byte extends Number implements Comparable { }

public class Short extends Number implements Comparable { }

public class Integer extends Number implements Comparable { }

public class Long extends Number implements Comparable { }

public class Float extends Number implements Comparable { }

public class Double extends Number implements Comparable { }

public class Character implements java.io.Serializable, Comparable { }

public class Boolean implements java.io.Serializable, Comparable { }

public class Enum<E> implements Comparable<E>, java.io.Serializable {
    public String name();
    public int ordinal();
}

public class Throwable implements java.io.Serializable {
    public String getMessage();
}

public class Exception extends Throwable { }

public class Error extends Throwable { }

public class RuntimeException extends Exception { }

public class Math {
    public static int max(int a, int b);
    public static long max(long a, long b);
    public static float max(float a, float b);
    public static double max(double a, double b);
    public static int min(int a, int b);
    public static long min(long a, long b);
    public static float min(float a, float b);
    public static double min(double a, double b);
}

public class System {
    public static java.io.PrintStream out;
    public static java.io.PrintStream err;
}

public class Class<T> { }

public interface Cloneable { }

public @interface Override { }

public @interface Deprecated { }

public @interface FunctionalInterface { }

public @interface SuppressWarnings {
    String[] value();
}
";

/// The package `java.lang.annotation`.
pub const JAVA_LANG_ANNOTATION: &[u8] = b"
package java.lang.annotation;

public interface Annotation { }
";

/// The package `java.io`.
pub const JAVA_IO: &[u8] = b"
package java.io;

public interface Serializable { }

public class PrintStream {
    public void println();
    public void println(boolean value);
    public void println(char value);
    public void println(int value);
    public void println(long value);
    public void println(float value);
    public void println(double value);
    public void println(char[] value);
    public void println(String value);
    public void println(Object value);
}
";

/// The package `java.util`.
pub const JAVA_UTIL: &[u8] = b"
package java.util;

public interface Iterator<E> {
    boolean hasNext();
    E next();
}

public interface Collection<E> extends Iterable<E> {
    int size();
    boolean isEmpty();
    boolean contains(Object element);
    boolean add(E element);
    boolean remove(Object element);
}

public interface List<E> extends Collection<E> {
    int size();
    boolean isEmpty();
    boolean contains(Object element);
    boolean add(E element);
    boolean remove(Object element);
    E get(int index);
    E set(int index, E element);
    void add(int index, E element);
}

public interface Set<E> extends Collection<E> {
    int size();
    boolean isEmpty();
    boolean contains(Object element);
    boolean add(E element);
    boolean remove(Object element);
}

public class ArrayList<E> implements List<E> { }

public class HashSet<E> implements Set<E> { }

public interface Map<K, V> {
    int size();
    V get(Object key);
    V put(K key, V value);
    boolean containsKey(Object key);

    interface Entry<K, V> {
        K getKey();
        V getValue();
    }
}

public class HashMap<K, V> implements Map<K, V> { }

public class Objects {
    public static boolean equals(Object a, Object b);
    public static <T> T requireNonNull(T value);
}
";
